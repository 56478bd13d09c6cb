//! Counts that stand one after another, with the sum of all and the sums of blocks of them. `total` is the sum of all, and
//! `find` tells in which of them a number falls (`specs/Counts.antt`, `Falls`): it goes over the sums of blocks, and then over
//! counts from the block in which the number falls, or from behind the last block that has a sum. `set` adds up one block again.
//! How many blocks have sums is bounded from above alone (`HasSums`): the contracts hold for fewer, which only take longer.
#![tactic(auto)]

ghost use Rattle.std.specs.Prelude.{◌≡◌, ◌+◌, ◌≤◌, IfOk, IfSome, length, take};
ghost use Rattle.std.specs.List.{sum};
ghost use Rattle.bl_ctree_counts.specs.Counts.{Falls, HasSums, HasTotal};

use bl_tree::{List, NoMemory};
use std::alloc::Global;
use std::marker::Model;

/// How many counts a block has.
const BLOCK: usize = 64;

/// Counts, in order.
#[derive(Drop)]
pub struct Counts {
    each: List<usize>,
    /// The sums of the first blocks, each of which is whole; none where one is too large.
    blocks: List<Option<usize>>,
    /// The sum of all; none where it is too large, or was so before a change.
    total: Option<usize>,
}

impl Model for Counts {
    ghost use Rattle.std.specs.Prelude.{ℕ, List};
    ghost use Rattle.bl_ctree_counts.specs.Counts.{HasSums, HasTotal};

    ghost Value = { List ℕ };

    ghost view = { λ counts. counts.each };

    ghost invariant = { λ counts. HasSums counts.blocks counts.each × HasTotal counts.total counts.each };
}

/// A number within one of some counts.
#[derive(Clone, Copy, PartialEq, Eq, Debug)]
pub struct InCount {
    /// Which of the counts.
    pub at: usize,
    /// What is left of the number without the counts before that one.
    pub rest: usize,
}

/// By how much the sum grows between two positions; none where that is too large.
fn sum_between(each: &[usize], from: usize, to: usize) -> Option<usize>
    requires order { from ≤ to }
    requires within { to ≤ length each.now }
    ensures { IfSome result (λ n. sum (take to each.now) ≡ sum (take from each.now) + n) }
{
    let mut total: usize = 0;
    for k in from..to {
        match total.checked_add(each[k]) {
            Some(more) => total = more,
            None => return None,
        }
    }
    Some(total)
}

/// The sums of the blocks that are whole. Fails only for want of memory.
fn blocks_of(alloc: Global, each: &[usize]) -> Result<List<Option<usize>>, NoMemory>
    ensures { IfOk result (λ made. HasSums made each.now) }
{
    let mut made = List::new(alloc);
    for b in 0..each.len() {
        let from = BLOCK * b;
        if each.len() - from < BLOCK {
            return Ok(made);
        }
        made.push(sum_between(each, from, from + BLOCK))?;
    }
    Ok(made)
}

/// Where a number falls that is so much beyond the counts before the position.
fn find_from(each: &[usize], from: usize, beyond: usize) -> Option<InCount>
    requires { from ≤ length each.now }
    ensures { Falls each.now (sum (take from each.now) + beyond) result }
{
    let mut rest = beyond;
    for at in from..each.len() {
        if rest < each[at] {
            return Some(InCount { at, rest });
        }
        rest -= each[at];
    }
    None
}

/// A sum in which a count that was old is now n; none where it is too large.
fn changed(sum: usize, old: usize, n: usize) -> Option<usize>
    requires { old ≤ sum }
    ensures { IfSome result (λ after. after + old ≡ sum + n) }
{
    (sum - old).checked_add(n)
}

impl Counts {
    ghost use Rattle.std.specs.Prelude.{◌<◌, slice_set};

    /// Fails only for want of memory.
    pub fn of(alloc: Global, each: List<usize>) -> Result<Counts, NoMemory>
        ensures { IfOk result (λ made. made ≡ each) }
    {
        let blocks = blocks_of(alloc, &each)?;
        let total = sum_between(&each, 0, each.len());
        Ok(Counts {
            each,
            blocks,
            total,
        })
    }

    /// The sum of all once the count with number k is n; none where it isn't known.
    fn total_with(&self, k: usize, n: usize) -> Option<usize>
        requires { k < length self.now }
        ensures { HasTotal result (slice_set self.now k n) }
    {
        match self.total {
            None => None,
            Some(total) => changed(total, self.each[k], n),
        }
    }

    pub fn set(&mut self, k: usize, n: usize)
        requires { k < length self.old }
        ensures { self.new ≡ slice_set self.old k n }
    {
        self.total = self.total_with(k, n);
        self.each.set(k, n);
        let b = k / BLOCK;
        if b < self.blocks.len() {
            let from = BLOCK * b;
            self.blocks
                .set(b, sum_between(&self.each, from, from + BLOCK));
        }
    }

    /// Fails only where the sum is too large for memory.
    pub fn total(&self) -> Result<usize, NoMemory>
        ensures { IfOk result (λ total. total ≡ sum self.now) }
    {
        match self.total {
            Some(total) => Ok(total),
            None => self.added(),
        }
    }

    /// The sum of the blocks and of what stands behind them.
    fn added(&self) -> Result<usize, NoMemory>
        ensures { IfOk result (λ total. total ≡ sum self.now) }
    {
        let mut total: usize = 0;
        for b in 0..self.blocks.len() {
            match self.blocks[b] {
                None => return Err(NoMemory),
                Some(block) => match total.checked_add(block) {
                    None => return Err(NoMemory),
                    Some(more) => total = more,
                },
            }
        }
        match sum_between(&self.each, BLOCK * self.blocks.len(), self.each.len()) {
            None => Err(NoMemory),
            Some(rest) => match total.checked_add(rest) {
                None => Err(NoMemory),
                Some(all) => Ok(all),
            },
        }
    }

    /// In which of the counts a number falls; none where it is no less than their sum.
    pub fn find(&self, n: usize) -> Option<InCount>
        ensures { Falls self.now n result }
    {
        let mut beyond = n;
        for b in 0..self.blocks.len() {
            match self.blocks[b] {
                None => return find_from(&self.each, BLOCK * b, beyond),
                Some(block) => {
                    if beyond < block {
                        return find_from(&self.each, BLOCK * b, beyond);
                    }
                    beyond -= block;
                }
            }
        }
        find_from(&self.each, BLOCK * self.blocks.len(), beyond)
    }
}
