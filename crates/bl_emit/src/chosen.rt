//! The positions at which tests are set.

ghost use Rattle.std.specs.Prelude.{◌≡◌, IfOk, false, filter, length, slice_get, unwrap_or};
ghost use Rattle.bl_machine.specs.Blocks.{up_to};

use bl_tree::slices::element;
use bl_tree::{List, NoMemory};
use std::alloc::Global;

/// Whether the test at a position is set.
pub fn is_set(tests: &[bool], k: usize) -> bool
    ensures { result ≡ unwrap_or (slice_get tests.now k) false }
{
    match element(tests, k) {
        Some(test) => *test,
        None => false,
    }
}

/// Of so many positions those at which the tests are set, in order.
pub fn chosen(alloc: Global, tests: &[bool], count: u32) -> Result<List<u32>, NoMemory>
    ensures { IfOk result (λ positions. positions ≡ filter (λ k. unwrap_or (slice_get tests.now k) false) (up_to count)) }
{
    let mut positions = List::new(alloc);
    for k in 0..count {
        if is_set(tests, k as usize) {
            positions.push(k)?;
        }
    }
    Ok(positions)
}

/// How many things there are. More than fit a number are want of memory.
pub fn count_of<T>(things: &[T]) -> Result<u32, NoMemory>
    ensures { IfOk result (λ count. count ≡ length things.now) }
{
    match u32::try_from(things.len()) {
        Ok(count) => Ok(count),
        Err(_) => Err(NoMemory),
    }
}
