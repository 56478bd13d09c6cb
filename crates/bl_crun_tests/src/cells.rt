//! Ticks and what they leave in the cells.

use crate::drive::{Driven, Seen, next};
use bl_crun::Runner;
use std::alloc::{AllocError, Global};
use std::process::Abort;
use std::test::Fail;

/// A tick over one number, what is seen of it, and the numbers in the cells behind it.
#[derive(Clone, Copy)]
pub struct Left<'a> {
    pub ins: i128,
    pub seen: Seen,
    pub cells: &'a [i128],
}

/// The numbers of all cells.
fn numbers(alloc: Global, runner: &Runner) -> Result<Vec<i128>, AllocError> {
    let mut numbers = Vec::new(alloc);
    for k in 0..runner.cells() {
        numbers.push(runner.cell(k))?;
    }
    Ok(numbers)
}

/// The cells hold these numbers.
pub fn hold(
    rt: &impl Abort,
    alloc: Global,
    driven: &Driven,
    expected: &[i128],
) -> Result<(), Fail> {
    let numbers = numbers(alloc, &driven.runner)?;
    assert_eq!(rt; numbers.as_slice(), expected);
    Ok(())
}

/// One more tick leaves this.
pub fn leaves(
    rt: &impl Abort,
    alloc: Global,
    driven: &mut Driven,
    left: &Left<'_>,
) -> Result<(), Fail> {
    let seen = next(alloc, driven, &[left.ins])?;
    assert_eq!(rt; seen, left.seen);
    hold(rt, alloc, driven, left.cells)
}
