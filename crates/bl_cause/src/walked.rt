//! Whether edges of a tick graph make a closed walk.

ghost use Rattle.std.specs.Prelude.{◌≡◌, ◌≤◌, ◌++◌, ◌∷◌, Contains, IfOk, Some, false, map, slice_get, true, ℕ};
ghost use Rattle.bl_cause.specs.Walks.{ClosedWalk};
ghost use Rattle.bl_cause.specs.inner.Walked.{edge_of, step_back, up_to, write_of};
ghost use Rattle.bl_graph.specs.Accesses.{flows, writers_at, writers_of};

use crate::guess::Passed;
use bl_graph::{Access, Kept};
use bl_tree::graph::Edge;
use bl_tree::slices::element;
use bl_tree::{List, NoMemory};
use std::alloc::Global;

/// The edges alone.
pub fn edges_of(alloc: Global, walk: &[Passed]) -> Result<List<Edge>, NoMemory>
    ensures { IfOk result (λ edges. edges ≡ map edge_of walk.now) }
{
    let mut edges = List::new(alloc);
    for passed in walk {
        edges.push(passed.edge)?;
    }
    Ok(edges)
}

/// Whether they are edges of the graph, each of which begins where the one before it ends, and the first where the last does.
pub fn is_closed(kept: Kept<'_>, first: Passed, rest: &[Passed]) -> bool
    ensures { result ≡ true → ClosedWalk (kept.entry.control.now ++ flows kept.entry.accesses.now) (first.edge ∷ map edge_of rest.now) }
{
    let mut at = first.edge.to;
    let mut yes = is_edge(kept, first);
    for passed in rest {
        yes &= goes_on(kept, at, *passed);
        at = passed.edge.to;
    }
    yes & (at == first.edge.from)
}

/// Whether it is an edge of the graph, and begins at the node.
fn goes_on(kept: Kept<'_>, at: u32, passed: Passed) -> bool
    ensures from { result ≡ true → passed.edge.from ≡ at }
    ensures there { result ≡ true → Contains (kept.entry.control.now ++ flows kept.entry.accesses.now) passed.edge }
{
    (passed.edge.from == at) & is_edge(kept, passed)
}

/// Whether it is an edge of the graph.
fn is_edge(kept: Kept<'_>, passed: Passed) -> bool
    ensures { result ≡ true → Contains (kept.entry.control.now ++ flows kept.entry.accesses.now) passed.edge }
{
    if passed.edge.by_data {
        is_made(kept.accesses, passed.edge, passed.by)
    } else {
        is_control(kept.control, passed.edge, passed.by)
    }
}

/// Whether it is the edge at the position.
fn is_control(control: &[Edge], edge: Edge, at: u32) -> bool
    requires { edge.by_data ≡ false }
    ensures { result ≡ true → Contains control.now edge }
{
    match element(control, at as usize) {
        Some(found) => (found.from == edge.from) & (found.to == edge.to) & !found.by_data,
        None => false,
    }
}

/// Whether the access at the position makes the edge.
fn is_made(accesses: &[Access], edge: Edge, at: u32) -> bool
    requires { edge.by_data ≡ true }
    ensures { result ≡ true → Contains (flows accesses.now) edge }
{
    match element(accesses, at as usize) {
        Some(access) => is_made_by(accesses, edge, at, *access),
        None => false,
    }
}

/// Whether the access, which is the one at the position, makes the edge.
fn is_made_by(accesses: &[Access], edge: Edge, at: u32, access: Access) -> bool
    requires kind { edge.by_data ≡ true }
    requires stands { slice_get accesses.now at ≡ Some access }
    ensures { result ≡ true → Contains (flows accesses.now) edge }
{
    match access {
        Access::Read(node, from) => {
            (node == edge.to) & (from < at) & is_writer(accesses, from, edge.from)
        }
        Access::Write(_, _) => false,
    }
}

/// Whether the node is a writer of the access at the position.
fn is_writer(accesses: &[Access], position: u32, node: u32) -> bool
    ensures { result ≡ true → Contains (writers_at (writers_of accesses.now) (Some position)) node }
{
    let mut at = Some(position);
    while let Some(k) = at {
        if writes(accesses, k, node) {
            return true;
        }
        at = write_before(accesses, k);
    }
    false
}

/// Whether the access at the position is a write of the node.
fn writes(accesses: &[Access], at: u32, node: u32) -> bool
    ensures { result ≡ true → Contains (writers_at (writers_of accesses.now) (Some at)) node }
{
    match write_at_position(accesses, at) {
        Some((writer, _)) => writer == node,
        None => false,
    }
}

/// The position of the write that the one at the position names.
fn write_before(accesses: &[Access], at: u32) -> Option<u32>
    ensures earlier { up_to result ≤ at }
    ensures stays { (node : ℕ) → Contains (writers_at (writers_of accesses.now) result) node
        → Contains (writers_at (writers_of accesses.now) (Some at)) node }
{
    match write_at_position(accesses, at) {
        Some((_, before)) => step_back(before, at),
        None => None,
    }
}

/// The node of the write at the position, and the write before it.
fn write_at_position(accesses: &[Access], at: u32) -> Option<(u32, Option<u32>)>
    ensures { result ≡ write_of (slice_get accesses.now at) }
{
    match accesses.get(at as usize).copied() {
        Some(access) => match access {
            Access::Write(writer, before) => Some((writer, before)),
            Access::Read(_, _) => None,
        },
        None => None,
    }
}

/// The position, if it is before another.
fn step_back(position: Option<u32>, at: u32) -> Option<u32>
    ensures { result ≡ step_back position at }
{
    match position {
        Some(k) => { if k < at { Some(k) } else { None } }
        None => None,
    }
}
