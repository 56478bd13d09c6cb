//! Sources that are accepted.

use bl_cause::{Accepted, Schedule};
use bl_tree::Program;
use std::marker::Model;

/// A source for which no rule fails: its program, and its peeled program, accepted by itself, of which C is made
/// (`specs/Accepted.antt`, `SeenSource`). Where each unit stays as it is there is one program, and nothing is kept twice.
#[derive(Drop)]
pub struct AcceptedSource {
    /// The program of the source, where it isn't the peeled one.
    source: Option<Program>,
    peeled: Accepted,
}

impl Model for AcceptedSource {
    ghost use Rattle.std.specs.Coded.{codes};
    ghost use Rattle.std.specs.Prelude.{unwrap_or};
    ghost use Rattle.bl_tree.specs.contracts.tree.Stmt as stmt;
    ghost use Rattle.bl_tree.specs.contracts.tree.StmtKind as kind;
    ghost use Rattle.bl_tree.specs.contracts.tree.Ty as ty;
    ghost use Rattle.bl_rules.specs.Accepted.{IsAcceptedSource, SeenSource};

    ghost Value = { SeenSource };

    ghost coded = { Prim.hlevel (codes, stmt.the_row.coded, kind.the_row.coded, ty.the_row.coded) };

    ghost view = { λ a. record { program = unwrap_or a.source a.peeled.program; peeled = a.peeled } };

    ghost invariant = { λ a. IsAcceptedSource (record { program = unwrap_or a.source a.peeled.program; peeled = a.peeled }) };
}

impl AcceptedSource {
    ghost use Rattle.std.specs.Prelude.{◌≡◌, unwrap_or};
    ghost use Rattle.bl_cause.specs.Accepted.{IsSchedule};
    ghost use Rattle.bl_cause.specs.Rules.{Passes as OwnGraphsPass};
    ghost use Rattle.bl_cause_trees.specs.Peeled.{IsPeeled};
    ghost use Rattle.bl_effects.specs.Rules.{Passes as UnitsPass};
    ghost use Rattle.bl_limits.specs.Rules.{Passes as KeepsLimits};
    ghost use Rattle.bl_rules.specs.Accepted.{IsAcceptedSource, IsOfTree};
    ghost use Rattle.bl_rules.specs.Rules.{ProgramPasses};

    /// The program of a tree for which no rule fails, with its peeled program, unless it is that itself, and the schedule of that.
    pub(crate) fn new(
        program: Program,
        peeled: Option<Program>,
        schedule: Schedule,
    ) -> AcceptedSource
        requires of_tree { IsOfTree program }
        requires passes { ProgramPasses program.structs program.units program.entry }
        requires is_peeled { IsPeeled program (unwrap_or peeled program) }
        requires units { UnitsPass (unwrap_or peeled program).units }
        requires no_walks { OwnGraphsPass (unwrap_or peeled program).units }
        requires limits { KeepsLimits (unwrap_or peeled program).structs (unwrap_or peeled program).units (unwrap_or peeled program).entry }
        requires schedule { IsSchedule (unwrap_or peeled program).units schedule.graphs schedule.orders }
        ensures { result.program ≡ program }
    {
        match peeled {
            Some(peeled) => AcceptedSource {
                source: Some(program),
                peeled: Accepted::new(peeled, schedule),
            },
            None => AcceptedSource {
                source: None,
                peeled: Accepted::new(program, schedule),
            },
        }
    }

    /// The program of the source.
    pub fn program(&self) -> &Program
        ensures { result.now ≡ self.now.program }
    {
        match &self.source {
            Some(program) => program,
            None => self.peeled.program(),
        }
    }

    /// The peeled program, of which C is made.
    pub fn peeled(&self) -> &Accepted
        ensures { result.now ≡ self.now.peeled }
    {
        &self.peeled
    }

    /// No rule fails for the source, and its program is that of a tree.
    pub fn is_accepted(&self)
        ensures { IsAcceptedSource self.now }
    {
        let _ = &self.peeled;
    }
}
