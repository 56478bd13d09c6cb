//! A plant that does what it is told to, for tests.

ghost use Rattle.std.specs.Prelude.{◌≡◌, ◌≤◌, length, slice_get, take};
ghost use Rattle.bl_plant.specs.Kinds.{AnswersTurn, AreWide, no_log, rows_in, script};
ghost use Rattle.bl_plant.specs.Plants.{Gives, IsTold};

use crate::log::{Log, PlantName};
use crate::plant::{Give, Plant};
use crate::rows::{give_row, keep_told};
use bl_tree::{List, NoMemory, Row};
use std::alloc::Global;

/// What a script does when it is asked.
#[derive(Drop)]
pub enum Turn {
    Give(Row),
    /// It fails, and counts it.
    Fail,
}

/// A plant that takes one turn each time it is asked, and has finished after the last.
#[derive(Drop)]
pub struct Script {
    alloc: Global,
    name: PlantName,
    width: u32,
    turns: List<Turn>,
    /// How many turns were taken.
    taken: usize,
    faults: u64,
    log: Log,
    ghost wide: { AreWide width turns },
    ghost within: { taken ≤ length turns },
    ghost given: { length log.given ≡ length (rows_in (take taken turns)) },
}

impl Script {
    /// A script that was never asked, whose rows all have this width.
    pub fn new(alloc: Global, name: PlantName, width: u32, turns: List<Turn>) -> Script
        requires { AreWide width turns }
        ensures shown { ⟦<Script as Plant>⟧.shown result ≡ script name.number width turns no_log 0 }
        ensures turns { result.turns ≡ turns }
        ensures taken { result.taken ≡ 0 }
    {
        Script {
            alloc,
            name,
            width,
            turns,
            taken: 0,
            faults: 0,
            log: Log {
                given: List::new(alloc),
                told: List::new(alloc),
            },
        }
    }
}

impl Plant for Script {
    ghost shown = { λ s. script s.name.number s.width s.turns s.log s.faults };

    fn name(&self) -> PlantName {
        self.name
    }

    fn width(&self) -> u32 {
        self.width
    }

    fn log(&self) -> &Log {
        &self.log
    }

    fn give(&mut self, into: &mut Row) -> Give
        requires { length into.old ≡ self.old.width }
        ensures length { length into.new ≡ length into.old }
        ensures gives { Gives (script self.old.name.number self.old.width self.old.turns self.old.log self.old.faults) result into.new
            (script self.new.name.number self.new.width self.new.turns self.new.log self.new.faults) }

        // Which answer comes, by the turn that was reached, and which turn comes next.
        ensures turns { self.new.turns ≡ self.old.turns }
        ensures turn { AnswersTurn (slice_get self.old.turns self.old.taken)
            (record { taken = self.old.taken; log = self.old.log; faults = self.old.faults }) result into.new
            (record { taken = self.new.taken; log = self.new.log; faults = self.new.faults }) }
    {
        if self.taken >= self.turns.len() {
            return Give::Finished;
        }
        match &self.turns[self.taken] {
            Turn::Fail => {
                self.taken += 1;
                self.faults = self.faults.saturating_add(1);
                Give::Failed
            }
            Turn::Give(row) => match give_row(self.alloc, &mut self.log, row, into) {
                Give::Gave => {
                    self.taken += 1;
                    Give::Gave
                }
                answer => answer,
            },
        }
    }

    fn told(&mut self, outs: &Row) -> Result<(), NoMemory>
        ensures told { IsTold (script self.old.name.number self.old.width self.old.turns self.old.log self.old.faults) outs.now result
            (script self.new.name.number self.new.width self.new.turns self.new.log self.new.faults) }
        ensures turns { self.new.turns ≡ self.old.turns }
        ensures taken { self.new.taken ≡ self.old.taken }
    {
        keep_told(self.alloc, &mut self.log, outs)
    }
}
