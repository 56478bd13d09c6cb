//! Nodes in their order, put into blocks as long as they can be.

ghost use Rattle.std.specs.Prelude.{◌≡◌, ◌++◌, [], IfOk, OnOk};
ghost use Rattle.bl_block.specs.inner.Groups.{grouped, groups_from};
ghost use Rattle.bl_block.specs.inner.Ways.{follows};
ghost use Rattle.bl_tree.specs.Reduce.{joined};

use crate::ways::Ways;
use bl_tree::{List, NoMemory};
use std::alloc::Global;

/// The nodes of the blocks, one block after another.
pub fn nodes_of(alloc: Global, blocks: &[List<u32>]) -> Result<List<u32>, NoMemory>
    ensures { IfOk result (λ nodes. nodes ≡ joined blocks.now) }
{
    let mut nodes = List::new(alloc);
    for block in blocks {
        append(block, &mut nodes)?;
    }
    Ok(nodes)
}

/// Appends the nodes.
fn append(block: &[u32], nodes: &mut List<u32>) -> Result<(), NoMemory>
    ensures { OnOk result (nodes.new ≡ nodes.old ++ block.now) }
{
    for node in block {
        nodes.push(*node)?;
    }
    Ok(())
}

/// The nodes in blocks: each in that of the node before it, where it could follow that.
pub fn grouped(alloc: Global, ways: &Ways, nodes: &[u32]) -> Result<List<List<u32>>, NoMemory>
    ensures { IfOk result (λ blocks. blocks ≡ grouped (follows ways.now) nodes.now) }
{
    match nodes.split_first() {
        Some((first, rest)) => groups_from(alloc, ways, *first, rest),
        None => Ok(List::new(alloc)),
    }
}

/// The blocks of a node and of those after it.
fn groups_from(
    alloc: Global,
    ways: &Ways,
    first: u32,
    rest: &[u32],
) -> Result<List<List<u32>>, NoMemory>
    ensures { IfOk result (λ blocks. blocks ≡ groups_from (follows ways.now) [] first rest.now) }
{
    let mut blocks = List::new(alloc);
    let mut block = List::new(alloc);
    let mut last = first;
    for node in rest {
        block.push(last)?;
        if !ways.follows(last, *node) {
            blocks.push(block)?;
            block = List::new(alloc);
        }
        last = *node;
    }
    block.push(last)?;
    blocks.push(block)?;
    Ok(blocks)
}
