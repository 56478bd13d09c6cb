//! The tables of a listing: who may write a variable, and who reads it.

ghost use Rattle.std.specs.Prelude.{IfOk, OnOk, map};
ghost use Rattle.bl_ctree_store.specs.Seen.{location_of};
ghost use Rattle.bl_ctree_enabled.specs.Spots.{spot_of};
ghost use Rattle.bl_ctree_enabled.specs.inner.Tables.{AllNoted, Grows, Noted, reads_in};

use crate::listing::Found;
use crate::point::Point;
use crate::table::Table;
use bl_ctree_store::Home;
use bl_tree::{List, NoMemory};
use std::alloc::Global;

/// Each branch at the variables that it may still write. Fails only for want of memory, as what follows.
pub fn writers_of(alloc: Global, homes: &[List<Home>]) -> Result<Table, NoMemory>
    ensures { IfOk result (λ made. AllNoted made (map (map location_of) homes.now)) }
{
    let mut made = Table::new(alloc);
    for k in 0..homes.len() {
        made.note_all(k, &homes[k])?;
    }
    Ok(made)
}

/// Each branch at the variables that its points read.
pub fn readers_of(alloc: Global, points: &[List<Point>]) -> Result<Table, NoMemory>
    ensures { IfOk result (λ made. AllNoted made (map reads_in (map (map spot_of) points.now))) }
{
    let mut made = Table::new(alloc);
    for k in 0..points.len() {
        made.note_reads(k, &points[k])?;
    }
    Ok(made)
}

/// The branch with number k has these homes and points too.
pub fn note(
    writers: &mut Table,
    readers: &mut Table,
    k: usize,
    found: &Found,
) -> Result<(), NoMemory>
    ensures noted { OnOk result (Noted writers.new k (map location_of found.now.homes) × Noted readers.new k (reads_in (map spot_of found.now.points))) }
    ensures writers { Grows writers.old writers.new }
    ensures readers { Grows readers.old readers.new }
{
    writers.note_all(k, &found.homes)?;
    readers.note_reads(k, &found.points)
}
