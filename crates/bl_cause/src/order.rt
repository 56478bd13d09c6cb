//! An order of the nodes by numbers that rise along every edge.

ghost use Rattle.std.specs.Prelude.{◌≡◌, ◌<◌, ◌≤◌, ◌^◌, ◌++◌, true, All, List as Elements, length, replicate, slice_index};
ghost use Rattle.std.specs.Prelude.{IfOk, MatchOption, ⊤};
ghost use Rattle.bl_tree.specs.declared.graph.Edge.{Edge as AnEdge};
ghost use Rattle.bl_cause.specs.Walks.{ClosedWalk};
ghost use Rattle.bl_cause.specs.inner.Orders.{ranked};
ghost use Rattle.bl_cause.specs.Ranks.{Ranks};
ghost use Rattle.bl_graph.specs.Accesses.{flows};

use crate::edges::count_of;
use crate::finishing::sorted;
use crate::listed::listed;
use crate::rising::{data_rises, number_in, rises};
use crate::sweep::ranks;
use crate::walks::has_walk;
use bl_graph::{Graph, Kept};
use bl_tree::graph::Edge;
use bl_tree::{List, NoMemory};
use std::alloc::Global;

/// In which order the nodes may act. Nodes that no edge joins may have any numbers.
#[derive(Drop)]
pub struct Order {
    /// The number of each node.
    pub ranks: List<u32>,
}

impl Order {
    /// It rises along every edge. A node that isn't there has 0.
    pub fn rank(&self, node: u32) -> u32
        ensures { result ≡ slice_index self.now.ranks node }
    {
        number_in(&self.ranks, node)
    }
}

/// An order for a graph without closed walks.
pub fn order_of(alloc: Global, edges: &[Edge]) -> Result<Order, NoMemory>
    requires { (walk : Elements AnEdge) → ¬ ClosedWalk edges.now walk }
    ensures { IfOk result (λ order. Ranks edges.now order.ranks) }
{
    let count = count_of(edges);
    let order = sorted(alloc, count, edges)?;
    let ranks = ranks_of(alloc, count, &order)?;
    Ok(Order { ranks })
}

/// An order for a graph without closed walks, that of the source as far as edges allow it. Any other graph gets none.
pub fn acyclic_order(alloc: Global, graph: &Graph) -> Result<Option<Order>, NoMemory>
    ensures some { IfOk result (λ found. MatchOption found ⊤ (λ order. Ranks graph.now.edges order.ranks)) }
    ensures none { IfOk result (λ found. MatchOption found (¬ ((walk : Elements AnEdge) → ¬ ClosedWalk graph.now.edges walk)) (λ _. ⊤)) }
{
    let swept = ranks(alloc, graph)?;
    let is_order = rises_in(alloc, graph.edges.kept(), &swept)?;
    if is_order {
        Ok(Some(Order { ranks: swept }))
    } else {
        finished_order(alloc, graph)
    }
}

/// The same, in the order in which a search is done with the nodes.
fn finished_order(alloc: Global, graph: &Graph) -> Result<Option<Order>, NoMemory>
    ensures some { IfOk result (λ found. MatchOption found ⊤ (λ order. Ranks graph.now.edges order.ranks)) }
    ensures none { IfOk result (λ found. MatchOption found (¬ ((walk : Elements AnEdge) → ¬ ClosedWalk graph.now.edges walk)) (λ _. ⊤)) }
{
    let is_closed = has_walk(alloc, graph)?;
    if is_closed {
        return Ok(None);
    }
    let all = listed(alloc, graph.edges.kept())?;
    let edges = all.as_slice();
    let count = count_of(edges);
    let order = sorted(alloc, count, edges)?;
    let ranks = ranks_of(alloc, count, &order)?;
    if rises(edges, &ranks, &ranks) {
        Ok(Some(Order { ranks }))
    } else {
        Ok(None)
    }
}

/// Whether the numbers rise along every edge.
fn rises_in(alloc: Global, kept: Kept<'_>, ranks: &[u32]) -> Result<bool, NoMemory>
    ensures { IfOk result (λ yes. yes ≡ true → Ranks (kept.entry.control.now ++ flows kept.entry.accesses.now) ranks.now) }
{
    let by_data = data_rises(alloc, kept.accesses, ranks, ranks)?;
    Ok(rises(kept.control, ranks, ranks) & by_data)
}

/// The position in the order for each node.
fn ranks_of(alloc: Global, count: usize, order: &[u32]) -> Result<List<u32>, NoMemory>
    requires nodes { All (λ node. node < count) order.now }
    requires few { length order.now ≤ 2 ^ 32 }
    ensures { IfOk result (λ ranks. ranks ≡ ranked order.now 0 (replicate count 0)) }
{
    let mut ranks = List::from_vec(vec![in alloc; 0u32; count]?);
    for (rank, node) in order.iter().enumerate() {
        ranks.set(*node as usize, rank as u32);
    }
    Ok(ranks)
}
