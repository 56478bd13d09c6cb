//! A tank, which is filled by what it is told.

ghost use Rattle.std.specs.Prelude.{◌≡◌, ◌≤ℤ◌, ◌+ℤ◌, ◌-ℤ◌, neg_ℤ, pos};
ghost use Rattle.std.specs.Int.{int_max, int_min};
ghost use Rattle.bl_plant.specs.Kinds.{first_output, level_after, no_log, tank};

use crate::log::{Log, PlantName};
use crate::plant::{Give, Plant};
use crate::rows::{give_number, keep_told};
use bl_tree::{List, NoMemory, Row};
use std::alloc::Global;

/// The level of a tank that is full.
const FULL: i128 = 1000;

/// A tank of name 1 and width 1. It gives its level a number of times, and then it has finished. When it is told outputs, the
/// first one flows in and the drain flows out. It never fails.
#[derive(Drop)]
pub struct Tank {
    alloc: Global,
    first: i128,
    drain: i128,
    rows: u32,
    level: i128,
    log: Log,
    ghost level_is: { level ≡ level_after first drain log.told },
    ghost low: { pos 0 ≤ℤ level },
    ghost high: { level ≤ℤ pos 1000 },
    ghost drain_low: { pos 0 ≤ℤ drain },
    ghost drain_high: { drain ≤ℤ pos 1000 },
}

impl Tank {
    /// A tank that was never asked. The level is how full it is, and `rows` how often it gives that.
    pub fn new(alloc: Global, level: i128, drain: i128, rows: u32) -> Tank
        requires level_low { pos 0 ≤ℤ level }
        requires level_high { level ≤ℤ pos 1000 }
        requires drain_low { pos 0 ≤ℤ drain }
        requires drain_high { drain ≤ℤ pos 1000 }
        ensures { ⟦<Tank as Plant>⟧.shown result ≡ tank level drain rows no_log }
    {
        Tank {
            alloc,
            first: level,
            drain,
            rows,
            level,
            log: Log {
                given: List::new(alloc),
                told: List::new(alloc),
            },
        }
    }
}

impl Plant for Tank {
    ghost shown = { λ t. tank t.first t.drain t.rows t.log };

    fn name(&self) -> PlantName {
        PlantName { number: 1 }
    }

    fn width(&self) -> u32 {
        1
    }

    fn log(&self) -> &Log {
        &self.log
    }

    fn give(&mut self, into: &mut Row) -> Give {
        if self.log.given.len() >= self.rows as usize {
            return Give::Finished;
        }
        give_number(self.alloc, &mut self.log, self.level, into)
    }

    fn told(&mut self, outs: &Row) -> Result<(), NoMemory> {
        keep_told(self.alloc, &mut self.log, outs)?;
        self.level = level_with(self.level, self.drain, first_of(outs));
        Ok(())
    }
}

/// The first output, or 0 where there is none.
fn first_of(outs: &Row) -> i128
    ensures { result ≡ first_output outs.now }
{
    if outs.len() == 0 { 0 } else { outs.at(0) }
}

/// The level once so much has flown in and the drain out.
fn level_with(level: i128, drain: i128, inflow: i128) -> i128
    requires level_low { pos 0 ≤ℤ level }
    requires level_high { level ≤ℤ pos 1000 }
    requires drain_low { pos 0 ≤ℤ drain }
    requires drain_high { drain ≤ℤ pos 1000 }
    ensures is { result ≡ int_max (pos 0) (int_min (pos 1000) ((level +ℤ inflow) -ℤ drain)) }
    ensures low { pos 0 ≤ℤ result }
    ensures high { result ≤ℤ pos 1000 }
{
    if inflow >= FULL + drain - level {
        return FULL;
    }
    if inflow <= drain - level {
        return 0;
    }
    raised(level, change(inflow, drain))
}

/// A level that changes within its tank.
fn raised(level: i128, change: i128) -> i128
    requires level_low { pos 0 ≤ℤ level }
    requires level_high { level ≤ℤ pos 1000 }
    requires low { neg_ℤ (pos 2000) ≤ℤ change }
    requires high { change ≤ℤ pos 2000 }
    ensures { result ≡ level +ℤ change }
{
    level + change
}

/// What flows in and out together.
fn change(inflow: i128, drain: i128) -> i128
    requires low { neg_ℤ (pos 1000) ≤ℤ inflow }
    requires high { inflow ≤ℤ pos 2000 }
    requires drain_low { pos 0 ≤ℤ drain }
    requires drain_high { drain ≤ℤ pos 1000 }
    ensures { result ≡ inflow -ℤ drain }
{
    inflow - drain
}
