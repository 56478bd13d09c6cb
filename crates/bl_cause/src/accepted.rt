//! Programs that are accepted.

use crate::order::Order;
use crate::schedule::Schedule;
use bl_effects::Effects;
use bl_graph::Graph;
use bl_tree::{NoMemory, Program};
use std::alloc::Global;
use std::marker::Model;

/// A program for which no rule fails, with the graphs and orders of its bodies (`specs/Accepted.antt`, `AcceptedProgram`).
#[derive(Drop)]
pub struct Accepted {
    program: Program,
    schedule: Schedule,
}

impl Model for Accepted {
    ghost use Rattle.std.specs.Coded.{codes};
    ghost use Rattle.bl_tree.specs.contracts.tree.Stmt as stmt;
    ghost use Rattle.bl_tree.specs.contracts.tree.StmtKind as kind;
    ghost use Rattle.bl_tree.specs.contracts.tree.Ty as ty;
    ghost use Rattle.bl_cause.specs.Accepted.{AcceptedProgram, IsAccepted};

    ghost Value = { AcceptedProgram };

    ghost coded = { Prim.hlevel (codes, stmt.the_row.coded, kind.the_row.coded, ty.the_row.coded) };

    ghost view = { λ a. record {
      program = a.program;
      graphs = a.schedule.graphs;
      orders = a.schedule.orders;
    } };

    ghost invariant = { λ a. IsAccepted (record {
      program = a.program;
      graphs = a.schedule.graphs;
      orders = a.schedule.orders;
    }) };
}

impl Accepted {
    ghost use Rattle.std.specs.Prelude.{◌≡◌, IfOk};
    ghost use Rattle.bl_cause.specs.Accepted.{IsAccepted, IsSchedule};
    ghost use Rattle.bl_cause.specs.Rules.{Passes};
    ghost use Rattle.bl_effects.specs.Rules.{Passes as UnitsPass};
    ghost use Rattle.bl_effects.specs.Table.{TableTellsEffects};
    ghost use Rattle.bl_limits.specs.Rules.{Passes as KeepsLimits};

    /// A program for which no rule fails, with its schedule.
    pub fn new(program: Program, schedule: Schedule) -> Accepted
        requires units { UnitsPass program.units }
        requires no_walks { Passes program.units }
        requires limits { KeepsLimits program.structs program.units program.entry }
        requires schedule { IsSchedule program.units schedule.graphs schedule.orders }
        ensures { result.program ≡ program }
    {
        Accepted { program, schedule }
    }

    /// The program.
    pub fn program(&self) -> &Program
        ensures { result.now ≡ self.now.program }
    {
        &self.program
    }

    /// What the statements of the program read and write, and which of them may end in the tick in which they begin. The table is made
    /// anew by each call.
    pub fn effects(&self, alloc: Global) -> Result<Effects, NoMemory>
        ensures { IfOk result (λ effects. TableTellsEffects effects self.now.program.units) }
    {
        Effects::of(alloc, &self.program)
    }

    /// The tick graphs of the program's activities, in the order of units.
    pub fn graphs(&self) -> &[Graph]
        ensures { result.now ≡ self.now.graphs }
    {
        &self.schedule.graphs
    }

    /// An order for each of them.
    pub fn orders(&self) -> &[Order]
        ensures { result.now ≡ self.now.orders }
    {
        &self.schedule.orders
    }

    /// No rule fails for the program.
    pub fn is_accepted(&self)
        ensures { IsAccepted self.now }
    {
        let _ = &self.program;
    }
}
