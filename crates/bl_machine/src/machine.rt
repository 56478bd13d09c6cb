//! Machines, and the machine of an accepted program.

use crate::activities::all;
use crate::slots::Slot;
use bl_cause::Accepted;
use bl_tree::{List, NoMemory, Program};
use std::alloc::Global;
use std::marker::Model;

/// An activity of a machine.
#[derive(Drop)]
pub struct Activity {
    /// Its blocks in the order in which one pass takes them: the numbers of nodes in its tick graph.
    pub blocks: List<List<u32>>,
    /// The numbers of its resting places in source order: of each `await`, `run` and end of a branch. The end of a branch
    /// stands before what stands in the branch.
    pub slots: List<Slot>,
}

/// The activities of a program in the order of units, each with its blocks and the numbers of its resting places
/// (`specs/Machines.antt`, `SeenMachine`).
#[derive(Drop)]
pub struct Machine<'a> {
    program: &'a Program,
    activities: List<Activity>,
}

impl<'a> Model for Machine<'a> {
    ghost use Rattle.std.specs.Coded.{codes};
    ghost use Rattle.bl_tree.specs.contracts.tree.Stmt as stmt;
    ghost use Rattle.bl_tree.specs.contracts.tree.StmtKind as kind;
    ghost use Rattle.bl_tree.specs.contracts.tree.Ty as ty;
    ghost use Rattle.bl_machine.specs.Machines.{IsMachine, SeenMachine};

    ghost Value = { SeenMachine };

    ghost coded = { Prim.hlevel (codes, stmt.the_row.coded, kind.the_row.coded, ty.the_row.coded) };

    ghost view = { λ m. record { program = m.program.now; activities = m.activities } };

    ghost invariant = { λ m. IsMachine (record { program = m.program.now; activities = m.activities }) };
}

impl<'a> Machine<'a> {
    ghost use Rattle.std.specs.Prelude.{◌≡◌, IfOk};
    ghost use Rattle.bl_machine.specs.Machines.{AreActivitiesOf, IsMachine, IsPlainMachine};

    /// A machine of these activities.
    pub fn new(program: &'a Program, activities: List<Activity>) -> Machine<'a>
        requires { AreActivitiesOf program.now.units activities }
        ensures program { result.program ≡ program.now }
        ensures activities { result.activities ≡ activities }
    {
        Machine {
            program,
            activities,
        }
    }

    /// The machine of an accepted program: each node is a block of its own, and each activity takes as few counters as it can.
    /// Fails only if memory runs out.
    pub fn of(alloc: Global, accepted: &'a Accepted) -> Result<Machine<'a>, NoMemory>
        ensures program { IfOk result (λ machine. machine.program ≡ accepted.now.program) }
        ensures plain { IfOk result IsPlainMachine }
    {
        accepted.is_accepted();
        let program = accepted.program();
        let activities = all(alloc, program, accepted.graphs(), accepted.orders())?;
        Ok(Machine::new(program, activities))
    }

    /// The program of whose activities it is.
    pub fn program(&self) -> &'a Program
        ensures { result.now ≡ self.now.program }
    {
        self.program
    }

    /// The activities of the program, in the order of units.
    pub fn activities(&self) -> &[Activity]
        ensures { result.now ≡ self.now.activities }
    {
        &self.activities
    }

    /// What each machine keeps.
    pub fn is_machine(&self)
        ensures { IsMachine self.now }
    {
        let _ = &self.activities;
    }
}
