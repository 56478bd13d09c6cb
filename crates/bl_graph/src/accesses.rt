//! Data edges by the accesses that make them. In place of an edge from each of m writers of a path to each of n readers there
//! are m writes, each of which stands for those before it too, and n reads.

ghost use Rattle.std.specs.Prelude.{◌≡◌, ◌<◌, [], ◌++◌, length, map, IfOk, OnOk};
ghost use Rattle.bl_graph.specs.Accesses.{flows};
ghost use Rattle.bl_graph.specs.inner.Needed.{AreNeeded, after_need, mark_earlier, moved, named_by, new_position, reads, with_needed};
ghost use Rattle.bl_graph.specs.inner.Parts.{shifted};

use crate::part::after;
use bl_tree::{List, NoMemory};
use std::alloc::Global;
use std::marker::Model;

/// A node that writes or reads a path, and the position of an earlier write of it.
#[derive(Clone, Copy)]
pub enum Access {
    /// The writers that it stands for are this node and those of the earlier write.
    Write(u32, Option<u32>),
    /// An edge leads to this node from each writer that the earlier write stands for.
    Read(u32, u32),
}

/// The data edges of a tick graph.
#[derive(Drop)]
pub struct DataEdges {
    accesses: List<Access>,
}

impl Model for DataEdges {
    ghost use Rattle.std.specs.Prelude.{List};
    ghost use Rattle.bl_tree.specs.declared.graph.Edge.{Edge};
    ghost use Rattle.bl_graph.specs.Accesses.{flows};

    ghost Value = { List Edge };

    ghost view = { λ edges. flows edges.accesses };
}

impl DataEdges {
    pub fn new(alloc: Global) -> DataEdges
        ensures { result ≡ [] }
    {
        DataEdges {
            accesses: List::new(alloc),
        }
    }

    /// What makes them.
    pub fn accesses(&self) -> &[Access]
        ensures { flows result.now ≡ self.now }
    {
        &self.accesses
    }

    /// Appends the edges of these accesses, whose nodes are numbered from the first on. A write that no read needs makes none,
    /// and is left out.
    pub fn append(&mut self, alloc: Global, first: u32, accesses: &[Access]) -> Result<(), NoMemory>
        ensures { OnOk result (self.new ≡ self.old ++ map (shifted first) (flows accesses.now)) }
    {
        let needed = needed(alloc, accesses)?;
        append_needed(alloc, first, accesses, &needed, &mut self.accesses)
    }
}

/// Which accesses a read needs: itself, the write that it names, and those before that.
fn needed(alloc: Global, accesses: &[Access]) -> Result<List<bool>, NoMemory>
    ensures size { IfOk result (λ needed. length needed ≡ length accesses.now) }
    ensures needed { IfOk result (AreNeeded accesses.now 0) }
{
    let mut needed = List::from_vec(vec![in alloc; false; accesses.len()]?);
    let mut k = accesses.len();
    while k > 0 {
        k -= 1;
        need(accesses[k], k, &mut needed);
    }
    Ok(needed)
}

/// Marks an access that reads or is needed, and the earlier write that it names.
fn need(access: Access, position: usize, needed: &mut List<bool>)
    requires { position < length needed.old }
    ensures { needed.new ≡ after_need access position needed.old }
{
    if reads(access) | needed[position] {
        needed.set(position, true);
        mark_earlier(named_by(access), position, needed);
    }
}

/// Marks the first position, if it is before the second.
fn mark_earlier(earlier: Option<u32>, position: usize, needed: &mut List<bool>)
    requires { position < length needed.old }
    ensures { needed.new ≡ mark_earlier earlier position needed.old }
{
    match earlier {
        Some(earlier) => {
            if (earlier as usize) < position {
                needed.set(earlier as usize, true);
            }
        }
        None => {}
    }
}

/// Whether it is a read.
fn reads(access: Access) -> bool
    ensures { result ≡ reads access }
{
    match access {
        Access::Write(_, _) => false,
        Access::Read(_, _) => true,
    }
}

/// The position of the earlier write, where there is one.
fn named_by(access: Access) -> Option<u32>
    ensures { result ≡ named_by access }
{
    match access {
        Access::Write(_, before) => before,
        Access::Read(_, from) => Some(from),
    }
}

/// Appends those of the accesses that are needed.
fn append_needed(
    alloc: Global,
    first: u32,
    from: &[Access],
    needed: &[bool],
    into: &mut List<Access>,
) -> Result<(), NoMemory>
    requires size { length needed.now ≡ length from.now }
    requires needed { AreNeeded from.now 0 needed.now }
    ensures { OnOk result (flows into.new ≡ flows into.old ++ map (shifted first) (flows from.now)) }
{
    let mut positions = List::new(alloc);
    for k in 0..from.len() {
        let own = append_one(first, &positions, k, needed[k], from[k], into)?;
        positions.push(own)?;
    }
    Ok(())
}

/// Appends the access at a position, where it is needed, and gives its own position.
fn append_one(
    first: u32,
    positions: &[u32],
    at: usize,
    needed: bool,
    access: Access,
    into: &mut List<Access>,
) -> Result<u32, NoMemory>
    ensures own { IfOk result (λ own. own ≡ length into.old) }
    ensures more { IfOk result (λ own. into.new ≡ with_needed needed first positions.now at own access into.old) }
{
    let own = after(0, into.len())?;
    if needed {
        into.push(moved(first, positions, at, own, access)?)?;
    }
    Ok(own)
}

/// The access at a position among others, where its own position is this one, and earlier ones have the positions.
fn moved(
    first: u32,
    positions: &[u32],
    at: usize,
    own: u32,
    access: Access,
) -> Result<Access, NoMemory>
    ensures { IfOk result (λ made. made ≡ moved first positions.now at own access) }
{
    match access {
        Access::Write(node, before) => {
            let node = after(first, node as usize)?;
            Ok(Access::Write(node, new_position(positions, at, before)))
        }
        Access::Read(node, from) => {
            let node = after(first, node as usize)?;
            let from = new_position(positions, at, Some(from)).unwrap_or(own);
            Ok(Access::Read(node, from))
        }
    }
}

/// The position of an earlier access among others.
fn new_position(positions: &[u32], at: usize, earlier: Option<u32>) -> Option<u32>
    ensures { result ≡ new_position positions.now at earlier }
{
    match earlier {
        Some(k) => {
            if (k as usize) < at {
                Some(positions.get(k as usize).copied().unwrap_or(0))
            } else {
                None
            }
        }
        None => None,
    }
}
