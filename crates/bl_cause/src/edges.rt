//! The edges of a graph, by the nodes at which they begin or end.

ghost use Rattle.std.specs.Prelude.{◌≡◌, ◌<◌, ◌≤◌, ◌^◌, [], IfOk};
ghost use Rattle.bl_cause.specs.Walks.{controls};
ghost use Rattle.bl_cause.specs.inner.Lists.{Rows, Within, edges_from, edges_into};

use bl_tree::graph::Edge;
use bl_tree::{List, NoMemory};
use std::alloc::Global;

/// As many nodes as the edges name, from the first one on.
pub fn count_of(edges: &[Edge]) -> usize
    ensures few { result ≤ 2 ^ 32 }
    ensures ends { Within result edges.now }
{
    let mut count = 0;
    for edge in edges {
        count = widened(count, *edge);
    }
    count
}

fn widened(count: usize, edge: Edge) -> usize
    requires { count ≤ 2 ^ 32 }
    ensures few { result ≤ 2 ^ 32 }
    ensures grows { count ≤ result }
    ensures from { edge.from < result }
    ensures to { edge.to < result }
{
    count.max(edge.from as usize + 1).max(edge.to as usize + 1)
}

/// The control edges.
pub fn controls(alloc: Global, edges: &[Edge]) -> Result<List<Edge>, NoMemory>
    ensures { IfOk result (λ kept. kept ≡ controls edges.now) }
{
    let mut kept = List::new(alloc);
    for edge in edges {
        if !edge.by_data {
            kept.push(*edge)?;
        }
    }
    Ok(kept)
}

/// For each node the edges that begin there.
pub fn leaving(alloc: Global, count: usize, edges: &[Edge]) -> Result<List<List<Edge>>, NoMemory>
    requires { Within count edges.now }
    ensures { IfOk result (Rows (edges_from edges.now) count) }
{
    let mut rows = empty_rows(alloc, count)?;
    for edge in edges {
        rows.get_mut(edge.from as usize).push(*edge)?;
    }
    Ok(rows)
}

/// For each node the edges that end there.
pub fn entering(alloc: Global, count: usize, edges: &[Edge]) -> Result<List<List<Edge>>, NoMemory>
    requires { Within count edges.now }
    ensures { IfOk result (Rows (edges_into edges.now) count) }
{
    let mut rows = empty_rows(alloc, count)?;
    for edge in edges {
        rows.get_mut(edge.to as usize).push(*edge)?;
    }
    Ok(rows)
}

fn empty_rows(alloc: Global, count: usize) -> Result<List<List<Edge>>, NoMemory>
    ensures { IfOk result (Rows (λ _. []) count) }
{
    let mut rows = List::new(alloc);
    for _ in 0..count {
        rows.push(List::new(alloc))?;
    }
    Ok(rows)
}
