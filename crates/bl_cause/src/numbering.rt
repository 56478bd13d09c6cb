//! Numbers for the nodes that never fall along an edge, and are the same for nodes that lead to each other.

ghost use Rattle.std.specs.Prelude.{◌≡◌, ◌<◌, All, length, IfOk, OnOk};
ghost use Rattle.bl_cause.specs.inner.Lists.{RowsWithin, Within};
ghost use Rattle.bl_cause.specs.inner.Numbers.{NeverFall, StayUp, lowered_along, lowered_to};

use crate::edges::entering;
use bl_tree::graph::Edge;
use bl_tree::{List, NoMemory};
use std::alloc::Global;

/// Each node of the order gives its position to all that lead to it and have no lesser number yet. Nodes that lead to none
/// of them have the greatest number.
pub fn numbers(
    alloc: Global,
    count: usize,
    edges: &[Edge],
    order: &[u32],
) -> Result<List<usize>, NoMemory>
    requires ends { Within count edges.now }
    requires nodes { All (λ node. node < count) order.now }
    ensures length { IfOk result (λ numbers. length numbers ≡ count) }
    ensures fall { IfOk result (NeverFall edges.now) }
{
    let rows = entering(alloc, count, edges)?;
    let mut numbers = List::from_vec(vec![in alloc; usize::MAX; count]?);
    for (number, node) in order.iter().enumerate() {
        lower(alloc, &rows, *node, number, &mut numbers)?;
    }
    Ok(numbers)
}

/// Gives the number to the node and to all that lead to it, where they have a greater one.
fn lower(
    alloc: Global,
    rows: &[List<Edge>],
    node: u32,
    number: usize,
    numbers: &mut List<usize>,
) -> Result<(), NoMemory>
    requires node { node < length numbers.old }
    requires rows { RowsWithin (length numbers.old) rows.now }
    ensures length { OnOk result (length numbers.new ≡ length numbers.old) }
    ensures fall { OnOk result (StayUp rows.now numbers.old numbers.new) }
{
    if numbers[node as usize] <= number {
        return Ok(());
    }
    numbers.set(node as usize, number);
    let mut lowered = Vec::new(alloc);
    if lowered.push(node).is_err() {
        return Err(NoMemory);
    }
    while let Some(node) = lowered.pop() {
        lower_along(&rows[node as usize], numbers, &mut lowered)?;
    }
    Ok(())
}

/// Lowers the numbers where these edges begin to those where they end, and adds the nodes whose numbers fall.
fn lower_along(
    row: &[Edge],
    numbers: &mut List<usize>,
    lowered: &mut Vec<u32>,
) -> Result<(), NoMemory>
    requires ends { Within (length numbers.old) row.now }
    ensures { OnOk result (lowered_to numbers.new lowered.new.items ≡ lowered_along row.now (lowered_to numbers.old lowered.old.items)) }
{
    for edge in row {
        let number = numbers[edge.to as usize];
        if numbers[edge.from as usize] > number {
            numbers.set(edge.from as usize, number);
            if lowered.push(edge.from).is_err() {
                return Err(NoMemory);
            }
        }
    }
    Ok(())
}
