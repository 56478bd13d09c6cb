//! The numbers of nodes by where they stand in source order.

ghost use Rattle.std.specs.Prelude.{◌≡◌, ℕ, IfOk, length, nat_eq, replicate, slice_index_or};
ghost use Rattle.bl_machine_pass.specs.Numbered.{position_where};

use bl_tree::NoMemory;
use std::alloc::Global;

/// How many nodes stand in an order. A number that doesn't fit is want of memory.
pub fn counted(order: &[u32]) -> Result<u32, NoMemory>
    ensures { IfOk result (λ count. count ≡ length order.now) }
{
    match u32::try_from(order.len()) {
        Ok(count) => Ok(count),
        Err(_) => Err(NoMemory),
    }
}

/// So many times a number.
fn filled(alloc: Global, number: u32, count: usize) -> Result<Vec<u32>, NoMemory>
    ensures { IfOk result (λ all. all.items ≡ replicate count number) }
{
    let all = vec![in alloc; number; count]?;
    Ok(all)
}

/// Where each node stands in an order: its number. Numbers that don't fit are want of memory, and so is a node in the order that is beyond
/// its length, which no order of the nodes of a body has.
pub fn ranks(alloc: Global, order: &[u32]) -> Result<Vec<u32>, NoMemory>
    ensures { IfOk result (λ ranks. (k : ℕ) → slice_index_or ranks.items k (length order.now) ≡ position_where (nat_eq k) order.now) }
{
    let count = counted(order)?;
    let mut ranks = filled(alloc, count, order.len())?;
    for step in 0..count {
        let at = count - 1 - step;
        let node = order[at as usize];
        if node as usize >= ranks.len() {
            return Err(NoMemory);
        }
        ranks[node as usize] = at;
    }
    Ok(ranks)
}
