//! The generated program judged, and walked.

ghost use Rattle.std.specs.Prelude.{◌≤◌, IfErr, IfOk, OnOk};
ghost use Rattle.bl_ctree.specs.Means.{Means, shown_trace};
ghost use Rattle.bl_gen.specs.Outputs.{input_rows};
ghost use Rattle.bl_gen.specs.Text.{most_stages, program_text};
ghost use Rattle.bl_gen_run.specs.Runs.{IsGeneratedRun, IsUnrun};
ghost use Rattle.bl_rules.specs.Accepted.{HasProgram};

use crate::text::{Run, text_of};
use crate::unrun::Unrun;
use bl_gen::{GenFault, input_rows, program};
use bl_rules::{AcceptedSource, accept};
use bl_rules_laws::traces::accepted_trees_have_one_trace;
use bl_tree::{List, NoMemory, Refusal, Trace};
use std::alloc::Global;

/// Makes the program of so many stages and runs it over its rows: what its one trace comes to, or why it isn't run.
pub fn run(alloc: Global, stages: u32) -> Result<Run, Unrun>
    requires { 1 ≤ stages }
    ensures ran { IfOk result (λ run. IsGeneratedRun stages run.text.items run.last) }
    ensures unrun { IfErr result (IsUnrun stages) }
{
    let accepted = match accepted_of(alloc, stages) {
        Ok(accepted) => accepted,
        Err(unrun) => return Err(unrun),
    };
    match run_of(alloc, stages, &accepted) {
        Ok(run) => Ok(run),
        Err(_) => Err(Unrun::Refused(Refusal::NoMemory)),
    }
}

/// The program of so many stages, where no rule refuses it.
fn accepted_of(alloc: Global, stages: u32) -> Result<AcceptedSource, Unrun>
    requires { 1 ≤ stages }
    ensures within { OnOk result (stages ≤ most_stages) }
    ensures program { IfOk result (λ accepted. HasProgram (program_text stages) accepted.program) }
    ensures unrun { IfErr result (IsUnrun stages) }
{
    let text = match program(alloc, stages) {
        Ok(text) => text,
        Err(GenFault::TooLarge { n }) => return Err(Unrun::TooLarge { stages: n }),
        Err(GenFault::NoMemory) => return Err(Unrun::Refused(Refusal::NoMemory)),
    };
    match accept(alloc, &text) {
        Ok(accepted) => Ok(accepted),
        Err(refusal) => Err(Unrun::Refused(refusal)),
    }
}

/// Runs the program of so many stages.
fn run_of(alloc: Global, stages: u32, accepted: &AcceptedSource) -> Result<Run, NoMemory>
    requires within { stages ≤ most_stages }
    requires program { HasProgram (program_text stages) accepted.now.program }
    ensures { IfOk result (λ run. IsGeneratedRun stages run.text.items run.last) }
{
    accepted_trees_have_one_trace();
    accepted.is_accepted();
    let trace = trace_of(alloc, accepted)?;
    let text = text_of(alloc, stages, &trace)?;
    Ok(Run {
        text,
        last: trace.last,
    })
}

/// A trace of the program over the rows.
fn trace_of(alloc: Global, accepted: &AcceptedSource) -> Result<Trace, NoMemory>
    ensures { IfOk result (λ trace. Means accepted.now.program.structs accepted.now.program.units accepted.now.program.entry
        input_rows (shown_trace trace)) }
{
    let rows = input_rows(alloc)?;
    let mut places = List::new(alloc);
    bl_rules_walk::walk(alloc, accepted, rows.as_slice(), 0, &mut places)
}
