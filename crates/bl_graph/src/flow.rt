//! The data edges between branches of one `cobegin`, from tables by static paths.

ghost use Rattle.std.specs.Prelude.{◌≡◌, ◌≤◌, ◌-◌, [], Some, List as Elements, length, IfOk, OnOk, reverse};
ghost use Rattle.bl_graph.specs.Accesses.{flows, writers_of};
ghost use Rattle.bl_graph.specs.inner.Flows.{FlowsAdded, InOrder};
ghost use Rattle.bl_graph.specs.inner.Found.{EndBy, is_reached as reached_by, links_at, links_to, swept, writes_at, writes_to};
ghost use Rattle.bl_graph.specs.inner.Gains.{Gains};
ghost use Rattle.bl_graph.specs.inner.Noted.{HasNotesAndFronts, Note, NotingAll};

mod found;
mod notes;

use crate::accesses::Access;
use bl_tree::graph::Node;
use bl_tree::{List, NoMemory, Static};
use found::link_all_met;
use notes::Notes;
use std::alloc::Global;

/// Whether a node is reached from where its part begins, and whether from where it goes on in a later tick.
#[derive(Clone, Copy, PartialEq, Eq, Debug)]
pub struct Mark {
    pub surface: bool,
    pub depth: bool,
}

/// A node, how it is reached in its branch, and what it reads and writes.
#[derive(Drop)]
pub struct Flow {
    pub node: Node,
    pub mark: Mark,
    /// Ascending, each once.
    pub reads: List<Static>,
    /// Ascending, each once.
    pub writes: List<Static>,
}

/// The nodes of a branch: the number of the first, and that after the last.
#[derive(Clone, Copy, PartialEq, Eq, Debug)]
pub struct Span {
    pub first: u32,
    pub end: u32,
}

/// What makes an edge from each node to each in another branch that is in the surface or in the depth of its branch as the
/// first is, and reads what the first writes. Fails only for want of memory.
pub(crate) fn flows(
    alloc: Global,
    nodes: &[Flow],
    branches: &[Span],
) -> Result<List<Access>, NoMemory>
    requires { InOrder 0 branches.now (length nodes.now) }
    ensures { IfOk result (λ accesses. FlowsAdded nodes.now branches.now [] (flows accesses)) }
{
    let back = reversed(alloc, branches)?;
    let mut accesses = List::new(alloc);
    sweep(alloc, nodes, branches, false, &mut accesses)?;
    sweep(alloc, nodes, &back, false, &mut accesses)?;
    sweep(alloc, nodes, branches, true, &mut accesses)?;
    sweep(alloc, nodes, &back, true, &mut accesses)?;
    Ok(accesses)
}

/// From the last to the first.
fn reversed(alloc: Global, branches: &[Span]) -> Result<List<Span>, NoMemory>
    ensures { IfOk result (λ back. back ≡ reverse branches.now) }
{
    let mut back = List::new(alloc);
    for span in branches.iter().rev() {
        back.push(*span)?;
    }
    Ok(back)
}

/// Whether the node is in the depth, or in the surface.
fn is_reached(mark: Mark, deep: bool) -> bool
    ensures { result ≡ reached_by deep mark }
{
    if deep { mark.depth } else { mark.surface }
}

/// The edges to each node of each branch from those of the branches before it, in the depths or in the surfaces.
fn sweep(
    alloc: Global,
    nodes: &[Flow],
    branches: &[Span],
    deep: bool,
    accesses: &mut List<Access>,
) -> Result<(), NoMemory>
    requires { EndBy branches.now (length nodes.now) }
    ensures { OnOk result (Gains accesses.old accesses.new (swept nodes.now deep branches.now (length branches.now))) }
{
    let mut notes = Notes::new(alloc);
    for span in branches {
        find_all(alloc, &notes, nodes, *span, deep, accesses)?;
        note_all(alloc, &mut notes, nodes, *span, deep, accesses)?;
    }
    Ok(())
}

/// The edges to the nodes of a branch from those that were noted.
fn find_all(
    alloc: Global,
    notes: &Notes,
    nodes: &[Flow],
    span: Span,
    deep: bool,
    accesses: &mut List<Access>,
) -> Result<(), NoMemory>
    requires in_order { span.first ≤ span.end }
    requires within { span.end ≤ length nodes.now }
    ensures { OnOk result ((ns : Elements Note) → HasNotesAndFronts (writers_of accesses.old) notes.now ns
        → Gains accesses.old accesses.new (links_to ns nodes.now deep span.first (span.end - span.first))) }
{
    for i in span.first..span.end {
        find(alloc, notes, &nodes[i as usize], i, deep, accesses)?;
    }
    Ok(())
}

fn find(
    alloc: Global,
    notes: &Notes,
    node: &Flow,
    i: u32,
    deep: bool,
    accesses: &mut List<Access>,
) -> Result<(), NoMemory>
    ensures { OnOk result ((ns : Elements Note) → HasNotesAndFronts (writers_of accesses.old) notes.now ns
        → Gains accesses.old accesses.new (links_at ns deep i (Some node.now))) }
{
    if is_reached(node.mark, deep) {
        return link_all_met(alloc, notes, &node.reads, i, accesses);
    }
    Ok(())
}

/// Notes what the nodes of a branch write.
fn note_all(
    alloc: Global,
    notes: &mut Notes,
    nodes: &[Flow],
    span: Span,
    deep: bool,
    accesses: &mut List<Access>,
) -> Result<(), NoMemory>
    requires in_order { span.first ≤ span.end }
    requires within { span.end ≤ length nodes.now }
    ensures { OnOk result (NotingAll accesses.old accesses.new notes.old notes.new (writes_to nodes.now deep span.first (span.end - span.first))) }
{
    for i in span.first..span.end {
        note(alloc, notes, &nodes[i as usize], i, deep, accesses)?;
    }
    Ok(())
}

fn note(
    alloc: Global,
    notes: &mut Notes,
    node: &Flow,
    i: u32,
    deep: bool,
    accesses: &mut List<Access>,
) -> Result<(), NoMemory>
    ensures { OnOk result (NotingAll accesses.old accesses.new notes.old notes.new (writes_at deep i (Some node.now))) }
{
    if is_reached(node.mark, deep) {
        return notes.note_all(alloc, &node.writes, i, accesses);
    }
    Ok(())
}
