//! What lines turn out to be.

use crate::fault::RowFault;
use bl_tree::row::Row;

/// Where a reader stands between two lines.
#[derive(Clone, Copy)]
pub struct RowPlace {
    /// How many lines came before.
    pub lines: u32,
    /// How many rows came before, or none where the header is still to come.
    pub ticks: Option<u32>,
}

/// What a line turned out to be.
#[derive(Drop)]
pub enum Verdict {
    /// It has no record.
    Passed,
    Header,
    Numbers(Row),
    Bad(RowFault),
}
