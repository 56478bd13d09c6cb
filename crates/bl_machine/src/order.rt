//! The nodes of an activity in an order in which one pass can take them.

ghost use Rattle.std.specs.Prelude.{◌≡◌, ◌∷◌, [], IsPermutation, length, map, IfOk};
ghost use Rattle.bl_cause.specs.Ranks.{Ranks};
ghost use Rattle.bl_machine.specs.Blocks.{up_to};
ghost use Rattle.bl_machine.specs.inner.Sorted.{AreInOrder};

use bl_cause::Order;
use bl_graph::Graph;
use bl_tree::{List, NoMemory};
use std::alloc::Global;

/// The numbers below this one. One that doesn't fit is want of memory.
fn up_to(alloc: Global, count: usize) -> Result<List<u32>, NoMemory>
    ensures { IfOk result (λ numbers. numbers ≡ up_to count) }
{
    let mut numbers = List::new(alloc);
    for k in 0..count {
        match u32::try_from(k) {
            Ok(number) => numbers.push(number)?,
            Err(_) => return Err(NoMemory),
        }
    }
    Ok(numbers)
}

/// The nodes of a tick graph in an order of it.
pub fn in_order(alloc: Global, graph: &Graph, order: &Order) -> Result<Vec<u32>, NoMemory>
    requires { Ranks graph.now.edges order.now.ranks }
    ensures all { IfOk result (λ nodes. IsPermutation (up_to (length graph.now.nodes)) nodes.items) }
    ensures ordered { IfOk result (λ nodes. AreInOrder graph.now.edges nodes.items) }
{
    let mut nodes = up_to(alloc, graph.nodes.len())?.into_vec();
    nodes.sort_by_key(|node| order.rank(*node))?;
    Ok(nodes)
}

/// A block for each node.
pub fn single(alloc: Global, nodes: &[u32]) -> Result<List<List<u32>>, NoMemory>
    ensures { IfOk result (λ blocks. blocks ≡ map (λ node. node ∷ []) nodes.now) }
{
    let mut blocks = List::new(alloc);
    for node in nodes {
        let mut block = List::new(alloc);
        block.push(*node)?;
        blocks.push(block)?;
    }
    Ok(blocks)
}
