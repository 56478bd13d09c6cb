//! A ramp, whose number grows.

ghost use Rattle.std.specs.Prelude.{◌≡◌};
ghost use Rattle.bl_plant.specs.Kinds.{no_log, ramp, ramp_at, ramp_then};

use crate::log::{Log, PlantName};
use crate::plant::{Give, Plant};
use crate::rows::{give_number, keep_told};
use bl_tree::{List, NoMemory, Row};
use std::alloc::Global;

/// A ramp of name 2 and width 1. It gives a number, which then grows by the step; it stays within 64 bits. It never finishes,
/// and never fails.
#[derive(Drop)]
pub struct Ramp {
    alloc: Global,
    first: i64,
    step: i32,
    number: i64,
    log: Log,
    ghost number_is: { number ≡ ramp_at first step log.given },
}

impl Ramp {
    /// A ramp that was never asked.
    pub fn new(alloc: Global, start: i64, step: i32) -> Ramp
        ensures { ⟦<Ramp as Plant>⟧.shown result ≡ ramp start step no_log }
    {
        Ramp {
            alloc,
            first: start,
            step,
            number: start,
            log: Log {
                given: List::new(alloc),
                told: List::new(alloc),
            },
        }
    }
}

impl Plant for Ramp {
    ghost shown = { λ r. ramp r.first r.step r.log };

    fn name(&self) -> PlantName {
        PlantName { number: 2 }
    }

    fn width(&self) -> u32 {
        1
    }

    fn log(&self) -> &Log {
        &self.log
    }

    fn give(&mut self, into: &mut Row) -> Give {
        match give_number(self.alloc, &mut self.log, i128::from(self.number), into) {
            Give::Gave => {
                self.number = grown(self.number, self.step);
                Give::Gave
            }
            answer => answer,
        }
    }

    fn told(&mut self, outs: &Row) -> Result<(), NoMemory> {
        keep_told(self.alloc, &mut self.log, outs)
    }
}

fn grown(number: i64, step: i32) -> i64
    ensures { result ≡ ramp_then step number }
{
    number.saturating_add(i64::from(step))
}
