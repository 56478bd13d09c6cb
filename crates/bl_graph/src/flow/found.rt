//! Data edges as they are found: the reads of nodes by the tables of what was written before.

ghost use Rattle.std.specs.Prelude.{◌<◌, List as Elements, length, OnOk};
ghost use Rattle.bl_graph.specs.Accesses.{links, writers_at, writers_of};
ghost use Rattle.bl_graph.specs.inner.Found.{links_met};
ghost use Rattle.bl_graph.specs.inner.Gains.{Gains};
ghost use Rattle.bl_graph.specs.inner.Noted.{HasNotesAndFronts, Note, front as front_of, numbers_at, numbers_met, numbers_to};

use crate::accesses::Access;
use crate::flow::notes::{Notes, front};
use bl_tree::{List, NoMemory, Static};
use std::alloc::Global;

/// An edge from each writer of the write, where there is one.
fn link(from: Option<u32>, to: u32, accesses: &mut List<Access>) -> Result<(), NoMemory>
    ensures { OnOk result (Gains accesses.old accesses.new (links to (writers_at (writers_of accesses.old) from))) }
{
    match from {
        Some(from) => {
            accesses.push(Access::Read(to, from))?;
            Ok(())
        }
        None => Ok(()),
    }
}

/// From the nodes that were noted with a front of the path. Fails only for want of memory, as all that follows.
fn link_front(
    alloc: Global,
    notes: &Notes,
    path: &Static,
    count: usize,
    to: u32,
    accesses: &mut List<Access>,
) -> Result<(), NoMemory>
    requires { count < length path.now.fields }
    ensures { OnOk result ((ns : Elements Note) → HasNotesAndFronts (writers_of accesses.old) notes.now ns
        → Gains accesses.old accesses.new (links to (numbers_at (front_of path.now count) ns))) }
{
    let front = front(alloc, path, count)?;
    link(notes.exactly.at(&front), to, accesses)
}

fn link_fronts(
    alloc: Global,
    notes: &Notes,
    path: &Static,
    to: u32,
    accesses: &mut List<Access>,
) -> Result<(), NoMemory>
    ensures { OnOk result ((ns : Elements Note) → HasNotesAndFronts (writers_of accesses.old) notes.now ns
        → Gains accesses.old accesses.new (links to (numbers_to ns path.now (length path.now.fields)))) }
{
    for k in 0..path.fields.len() {
        link_front(alloc, notes, path, k, to, accesses)?;
    }
    Ok(())
}

/// From the nodes that were noted with a path that overlaps this one.
fn link_met(
    alloc: Global,
    notes: &Notes,
    path: &Static,
    to: u32,
    accesses: &mut List<Access>,
) -> Result<(), NoMemory>
    ensures { OnOk result ((ns : Elements Note) → HasNotesAndFronts (writers_of accesses.old) notes.now ns
        → Gains accesses.old accesses.new (links to (numbers_met ns path.now))) }
{
    link(notes.within.at(path), to, accesses)?;
    link_fronts(alloc, notes, path, to, accesses)
}

/// From the nodes that were noted with a path that overlaps one of these.
pub fn link_all_met(
    alloc: Global,
    notes: &Notes,
    paths: &[Static],
    to: u32,
    accesses: &mut List<Access>,
) -> Result<(), NoMemory>
    ensures { OnOk result ((ns : Elements Note) → HasNotesAndFronts (writers_of accesses.old) notes.now ns
        → Gains accesses.old accesses.new (links_met ns to paths.now)) }
{
    for path in paths {
        link_met(alloc, notes, path, to, accesses)?;
    }
    Ok(())
}
