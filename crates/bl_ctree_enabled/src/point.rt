//! Points as they are kept.

use bl_ctree_store::{Deed, Home};
use bl_tree::tree::Expr;
use bl_tree::{List, Place};

/// What an action does: a test, or something that tests nothing.
#[derive(Clone, Copy)]
pub enum Effect<'a> {
    Asks(&'a Expr),
    Does(Deed<'a>),
}

/// A point of a tree.
#[derive(Drop)]
pub struct Point<'a> {
    /// That of its statement.
    pub place: Place,
    pub instance: u32,
    pub effect: Effect<'a>,
    /// The homes of what it reads.
    pub reads: List<Home>,
    /// The numbers of the branches that lead to it, from the outermost `cobegin` inwards.
    pub path: List<usize>,
}
