//! A tick graph with a node for each access between those that write and those that read, behind the graph's own nodes.

use bl_graph::{Access, Kept};
use bl_tree::graph::Edge;
use bl_tree::{List, NoMemory};
use std::alloc::Global;

/// Its edges: the control edges; an edge from each node that writes to its access, and from each write to the next one of its
/// path; and an edge from each write to the nodes that read it. Those from nodes that write are by data.
pub fn through(alloc: Global, count: usize, kept: Kept<'_>) -> Result<List<Edge>, NoMemory> {
    let mut edges = List::from_vec(kept.control.to_vec(alloc)?);
    for (k, access) in kept.accesses.iter().enumerate() {
        add(count, k, *access, &mut edges)?;
    }
    Ok(edges)
}

/// Of each of these edges the position of what it comes from: among the control edges, or among the accesses.
pub fn sources(alloc: Global, kept: Kept<'_>) -> Result<List<u32>, NoMemory> {
    let mut sources = List::new(alloc);
    for k in 0..kept.control.len() {
        sources.push(number_of(k)?)?;
    }
    for (k, access) in kept.accesses.iter().enumerate() {
        let position = number_of(k)?;
        sources.push(position)?;
        if let Access::Write(_, Some(_)) = *access {
            sources.push(position)?;
        }
    }
    Ok(sources)
}

/// A number that doesn't fit is want of memory.
fn number_of(position: usize) -> Result<u32, NoMemory> {
    match u32::try_from(position) {
        Ok(number) => Ok(number),
        Err(_) => Err(NoMemory),
    }
}

/// The node of the access at a position.
fn node_of(count: usize, position: usize) -> Result<u32, NoMemory> {
    number_of(count.saturating_add(position))
}

/// Adds the edges of the access at a position.
fn add(
    count: usize,
    position: usize,
    access: Access,
    edges: &mut List<Edge>,
) -> Result<(), NoMemory> {
    match access {
        Access::Write(writer, before) => {
            let to = node_of(count, position)?;
            push(writer, to, true, edges)?;
            match before {
                Some(before) => push(node_of(count, before as usize)?, to, false, edges),
                None => Ok(()),
            }
        }
        Access::Read(reader, from) => push(node_of(count, from as usize)?, reader, false, edges),
    }
}

fn push(from: u32, to: u32, by_data: bool, edges: &mut List<Edge>) -> Result<(), NoMemory> {
    edges.push(Edge { from, to, by_data })?;
    Ok(())
}
