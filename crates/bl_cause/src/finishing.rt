//! A depth-first search that lists the nodes as it is done with them, from the last to the first.

ghost use Rattle.std.specs.Prelude.{◌≡◌, ◌+◌, ◌<◌, ◌≤◌, ◌^◌, ℕ, true, false, Some, [], All};
ghost use Rattle.std.specs.Prelude.{length, replicate, slice_index_or, IfOk, OnOk};
ghost use Rattle.bl_cause.specs.inner.Found.{InGraphs};
ghost use Rattle.bl_cause.specs.inner.Lists.{In, RowsWithin, Within};
ghost use Rattle.bl_cause.specs.inner.Orders.{SearchInvariant, SearchKeepsInvariant, Sorted, advanced, after_entering, at_edge, state_of};

use crate::edges::leaving;
use bl_tree::graph::Edge;
use bl_tree::{List, NoMemory};
use std::alloc::Global;

/// A node that was entered, and how many of its edges were looked at.
#[derive(Clone, Copy, PartialEq, Eq, Debug)]
pub struct Frame {
    pub node: u32,
    pub next: usize,
}

/// A search under way.
#[derive(Drop)]
pub struct Search {
    /// Which nodes were entered.
    pub seen: List<bool>,
    /// Those that aren't done, the innermost last.
    pub stack: Vec<Frame>,
    /// Those that are done.
    pub order: List<u32>,
}

/// Every node once, before all that it leads to, but for those that lead back to it.
pub fn sorted(alloc: Global, count: usize, edges: &[Edge]) -> Result<Vec<u32>, NoMemory>
    requires ends { Within count edges.now }
    requires few { count ≤ 2 ^ 32 }
    ensures nodes { IfOk result (λ order. All (λ node. node < count) order.items) }
    ensures all { IfOk result (λ order. (node : ℕ) → node < count → In node order.items) }
    ensures length { IfOk result (λ order. length order.items ≤ count) }
    ensures sorted { IfOk result (λ order. Sorted edges.now order.items) }
{
    let rows = leaving(alloc, count, edges)?;
    let search = from_all(alloc, &rows)?;
    let mut order = search.order.into_vec();
    order.reverse();
    Ok(order)
}

/// A search that is done with all nodes.
fn from_all(alloc: Global, rows: &[List<Edge>]) -> Result<Search, NoMemory>
    requires rows { RowsWithin (length rows.now) rows.now }
    requires few { length rows.now ≤ 2 ^ 32 }
    ensures length { IfOk result (λ search. length search.seen ≡ length rows.now) }
    ensures empty { IfOk result (λ search. search.stack.items ≡ []) }
    ensures nodes { IfOk result (λ search. All (λ node. node < length rows.now) search.order) }
    ensures seen { IfOk result (λ search. (node : ℕ) → node < length rows.now → slice_index_or search.seen node false ≡ true) }
    ensures keeps { IfOk result (λ search. InGraphs rows.now (λ edges. SearchInvariant edges rows.now (state_of search))) }
{
    let mut search = Search::new(alloc, rows.len())?;
    for node in 0..rows.len() {
        search.enter(node as u32)?;
        search.finish(rows)?;
    }
    Ok(search)
}

impl Search {
    fn new(alloc: Global, count: usize) -> Result<Search, NoMemory>
        ensures { IfOk result (λ search. state_of search ≡ record { seen = replicate count false; stack = []; order = [] }) }
    {
        Ok(Search {
            seen: List::from_vec(vec![in alloc; false; count]?),
            stack: Vec::new(alloc),
            order: List::new(alloc),
        })
    }

    /// Enters the node, unless it was seen before.
    fn enter(&mut self, node: u32) -> Result<(), NoMemory>
        requires { node < length self.old.seen }
        ensures { OnOk result (state_of self.new ≡ after_entering node (state_of self.old)) }
    {
        if !self.seen[node as usize] {
            self.seen.set(node as usize, true);
            if self.stack.push(Frame { node, next: 0 }).is_err() {
                return Err(NoMemory);
            }
        }
        Ok(())
    }

    /// Goes on until all nodes that were entered are done.
    fn finish(&mut self, rows: &[List<Edge>]) -> Result<(), NoMemory>
        requires rows { RowsWithin (length self.old.seen) rows.now }
        requires frames { All (λ frame. frame.node < length self.old.seen) self.old.stack.items }
        requires order { All (λ node. node < length self.old.seen) self.old.order }
        ensures length { OnOk result (length self.new.seen ≡ length self.old.seen) }
        ensures empty { OnOk result (self.new.stack.items ≡ []) }
        ensures order { OnOk result (All (λ node. node < length self.new.seen) self.new.order) }
        ensures seen { OnOk result ((node : ℕ) → slice_index_or self.old.seen node false ≡ true → slice_index_or self.new.seen node false ≡ true) }
        ensures keeps { OnOk result (SearchKeepsInvariant (length self.old.seen) rows.now (state_of self.old) (state_of self.new)) }
    {
        while let Some(frame) = self.stack.pop() {
            self.advance(&rows[frame.node as usize], frame)?;
        }
        Ok(())
    }

    /// Looks at the next edge of the innermost node, or is done with the node.
    fn advance(&mut self, row: &[Edge], frame: Frame) -> Result<(), NoMemory>
        requires { Within (length self.old.seen) row.now }
        ensures { OnOk result (state_of self.new ≡ advanced frame row.now (state_of self.old)) }
    {
        match row.get(frame.next) {
            Some(edge) => self.look(frame, *edge),
            None => {
                self.order.push(frame.node)?;
                Ok(())
            }
        }
    }

    fn look(&mut self, frame: Frame, edge: Edge) -> Result<(), NoMemory>
        requires more { frame.next + 1 < 2 ^ 64 }
        requires end { edge.to < length self.old.seen }
        ensures { OnOk result (state_of self.new ≡ at_edge frame (Some edge) (state_of self.old)) }
    {
        let looked = Frame {
            node: frame.node,
            next: frame.next + 1,
        };
        if self.stack.push(looked).is_err() {
            return Err(NoMemory);
        }
        self.enter(edge.to)
    }
}
