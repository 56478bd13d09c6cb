//! All edges of a tick graph as a list. It is asked for only where a guess doesn't hold.

ghost use Rattle.std.specs.Prelude.{◌≡◌, ◌++◌, ◌∷◌, [], IfOk, OnOk};
ghost use Rattle.bl_cause.specs.inner.Listed.{edges_with, writers_with};
ghost use Rattle.bl_graph.specs.Accesses.{flows, links, writers_at};

use bl_graph::{Access, Kept};
use bl_tree::graph::Edge;
use bl_tree::{List, NoMemory};
use std::alloc::Global;

/// The control edges and the data edges.
pub fn listed(alloc: Global, kept: Kept<'_>) -> Result<List<Edge>, NoMemory>
    ensures { IfOk result (λ edges. edges ≡ kept.entry.control.now ++ flows kept.entry.accesses.now) }
{
    let mut edges = List::new(alloc);
    for edge in kept.control {
        edges.push(*edge)?;
    }
    let mut writers = List::new(alloc);
    for access in kept.accesses {
        let own = writers_with(alloc, &writers, *access)?;
        link(&writers, *access, &mut edges)?;
        writers.push(own)?;
    }
    Ok(edges)
}

/// The writers that an access stands for, by those of the accesses before it.
fn writers_with(alloc: Global, writers: &[List<u32>], access: Access) -> Result<List<u32>, NoMemory>
    ensures { IfOk result (λ own. own ≡ writers_with writers.now access) }
{
    match access {
        Access::Write(node, before) => copied(alloc, writers_at(writers, before), node),
        Access::Read(_, _) => Ok(List::new(alloc)),
    }
}

/// The nodes, and one more.
fn copied(alloc: Global, nodes: &[u32], last: u32) -> Result<List<u32>, NoMemory>
    ensures { IfOk result (λ made. made ≡ nodes.now ++ last ∷ []) }
{
    let mut made = List::new(alloc);
    for node in nodes {
        made.push(*node)?;
    }
    made.push(last)?;
    Ok(made)
}

/// Appends the edges that an access makes.
fn link(writers: &[List<u32>], access: Access, edges: &mut List<Edge>) -> Result<(), NoMemory>
    ensures { OnOk result (edges.new ≡ edges_with writers.now edges.old access) }
{
    match access {
        Access::Write(_, _) => Ok(()),
        Access::Read(to, from) => link_all(writers_at(writers, Some(from)), to, edges),
    }
}

/// Appends the data edges from the nodes to this one.
fn link_all(nodes: &[u32], to: u32, edges: &mut List<Edge>) -> Result<(), NoMemory>
    ensures { OnOk result (edges.new ≡ edges.old ++ links to nodes.now) }
{
    for from in nodes {
        edges.push(Edge {
            from: *from,
            to,
            by_data: true,
        })?;
    }
    Ok(())
}

/// The writers of the access at a position, where there is one.
fn writers_at(writers: &[List<u32>], position: Option<u32>) -> &[u32]
    ensures { result.now ≡ writers_at writers.now position }
{
    match position {
        Some(k) => match writers.get(k as usize) {
            Some(found) => found.as_slice(),
            None => &[],
        },
        None => &[],
    }
}
