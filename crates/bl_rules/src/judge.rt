//! Texts and trees judged by the rules in their order.

ghost use Rattle.std.specs.Prelude.{◌≡◌, IfErr, IfOk, OnOk, unwrap_or};
ghost use Rattle.bl_cause_trees.specs.Peeled.{PeeledAreTyped};
ghost use Rattle.bl_limits.specs.Rules.{Fails as LimitsFail, Passes as LimitsPass};
ghost use Rattle.bl_types_program.specs.Programs.{IsProgramOf};
ghost use Rattle.bl_rules.specs.Accepted.{HasProgram, IsOfTree};
ghost use Rattle.bl_rules.specs.Rules.{Fails, Passes, ProgramFails, ProgramPasses, TreeFails, TreePasses};
ghost use Rattle.bl_tree.specs.Rules.{IsCause};

use crate::accepted::AcceptedSource;
use crate::laws::{peeled_units_pass_the_rules, peeled_units_stay_typed};
use bl_cause_trees::Scheduled;
use bl_cause_trees::laws::units_are_peeled_in_one_way;
use bl_lex::laws::tokens_are_one;
use bl_parse_laws::spelled::a_text_has_one_tree;
use bl_parse_syntax::laws::first_failure_is_one;
use bl_parse_wellformed::WellFormedTree;
use bl_tree::{Program, Refusal};
use std::alloc::Global;

/// Judges the rules of a source text (docs/LANGUAGE.md, "Rules"), from Size to Cells, and makes its program.
pub fn accept(alloc: Global, text: &[u8]) -> Result<AcceptedSource, Refusal>
    ensures passes { OnOk result (Passes text.now) }
    ensures program { IfOk result (λ accepted. HasProgram text.now accepted.program) }
    ensures cause { IfErr result (IsCause (Fails text.now)) }
{
    tokens_are_one();
    a_text_has_one_tree();
    first_failure_is_one();
    let tokens = match bl_lex::lex(alloc, text) {
        Ok(tokens) => tokens,
        Err(refusal) => return Err(refusal),
    };
    let tree = match bl_parse_wellformed::parse(alloc, text, &tokens) {
        Ok(tree) => tree,
        Err(refusal) => return Err(refusal),
    };
    match accept_raw(alloc, &tree) {
        Ok(accepted) => Ok(accepted),
        Err(refusal) => Err(refusal),
    }
}

/// Judges those of a well-formed tree, from Duplicate on, and makes its program.
pub fn accept_raw(alloc: Global, tree: &WellFormedTree) -> Result<AcceptedSource, Refusal>
    ensures passes { OnOk result (TreePasses tree.now.raw) }
    ensures program { IfOk result (λ accepted. IsProgramOf tree.now.raw accepted.program) }
    ensures cause { IfErr result (IsCause (TreeFails tree.now.raw)) }
{
    peeled_units_stay_typed();
    let program = match bl_types_program::check(alloc, &tree.raw) {
        Ok(program) => program,
        Err(refusal) => return Err(refusal),
    };
    match accept_program(alloc, program) {
        Ok(accepted) => Ok(accepted),
        Err(refusal) => Err(refusal),
    }
}

/// Judges those of a typed program of a tree, from Pause on, and gives its peeled program with the schedule of that. The peeled program
/// is typed too: bodies with first turns of loops nest deeper than their sources, and keep the places of these.
fn accept_program(alloc: Global, program: Program) -> Result<AcceptedSource, Refusal>
    requires typed { PeeledAreTyped program.structs program.units program.entry }
    requires of_tree { ProgramPasses program.structs program.units program.entry → IsOfTree program }
    ensures passes { OnOk result (ProgramPasses program.structs program.units program.entry) }
    ensures program { IfOk result (λ accepted. accepted.program ≡ program) }
    ensures cause { IfErr result (IsCause (ProgramFails program.structs program.units program.entry)) }
{
    units_are_peeled_in_one_way();
    peeled_units_pass_the_rules();
    match bl_conflict::check(alloc, &program) {
        Ok(()) => {}
        Err(refusal) => return Err(refusal),
    }
    let scheduled = match bl_cause_trees::check(alloc, &program) {
        Ok(scheduled) => scheduled,
        Err(refusal) => return Err(refusal),
    };
    let Scheduled { peeled, schedule } = scheduled;
    match check_limits(alloc, &program, &peeled) {
        Ok(()) => Ok(AcceptedSource::new(program, peeled, schedule)),
        Err(refusal) => Err(refusal),
    }
}

/// Judges Frames and Cells, on the peeled program. Without one the program itself is that.
fn check_limits(alloc: Global, program: &Program, peeled: &Option<Program>) -> Result<(), Refusal>
    ensures passes { OnOk result (LimitsPass (unwrap_or peeled.now program.now).structs (unwrap_or peeled.now program.now).units
        (unwrap_or peeled.now program.now).entry) }
    ensures cause { IfErr result (IsCause (LimitsFail (unwrap_or peeled.now program.now).structs (unwrap_or peeled.now program.now).units
        (unwrap_or peeled.now program.now).entry)) }
{
    match peeled {
        Some(peeled) => bl_limits::check(alloc, peeled),
        None => bl_limits::check(alloc, program),
    }
}
