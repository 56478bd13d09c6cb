//! The command `run P ROWS`.

ghost use Rattle.std.specs.Prelude.{◌≡◌, ◌≤◌, IfOk, Some};
ghost use Rattle.bl_ctext_semantics_laws_places.specs.Behaviour.{behaviour_of};
ghost use Rattle.bl_top_commands.specs.Calls.{Output, call_of, output_of};
ghost use Rattle.bl_top_commands.specs.inner.Outcomes.{line_in};
ghost use Rattle.bl_top_commands.specs.Reads.{Reads, files_read};
ghost use Rattle.bl_top_commands.specs.Traces.{HasCourse, OneTrace};
ghost use Rattle.bl_crun.specs.Running.{loaded};
ghost use Rattle.bl_io.specs.Count.{NeverFell};
ghost use Rattle.bl_rows_stream.specs.Streams.{course_of};
ghost use Rattle.bl_rules_laws_sizes.specs.Small.{IsOfSmallTree};
ghost use Rattle.bl_top.specs.Run.{RunEnds};
ghost use Rattle.bl_top_args.specs.Jobs.{run};

use crate::emitted::c_file;
use bl_crun::{LoadFault, Runner};
use bl_io::{Files, Sink};
use bl_rows_stream::laws::{rows_of_bytes_fit, rows_of_lines_fit};
use bl_rules::AcceptedSource;
use bl_rules_laws_sizes::programs_of_texts_are_small;
use bl_top_commands::laws::{
    faults_count_from_before, kept_files_are_within_limits, programs_run_as_their_source,
};
use bl_top_commands::outcome::Outcome;
use bl_top_commands::rows::run_over;
use bl_top_commands::source::accepted_of;
use bl_top_commands::status::Status;
use bl_tree::NoMemory;
use std::alloc::Global;

/// Runs the source file of this name over a file of rows.
pub fn run<F: Files, O: Sink>(
    alloc: Global,
    source: &str,
    rows: &str,
    files: &mut F,
    out: &mut O,
) -> Outcome
    ensures ends { (notes : Output) → RunEnds
        (call_of (F.left files.old) (F.left files.new) (F.faults files.old) (F.faults files.new)
        (output_of (O.faults out.old) (O.faults out.new) (O.held out.old) (O.held out.new)) notes)
        source.now rows.now result.status (line_in result) }
    ensures reads { Reads (files_read (Some (run source.now rows.now))) (F.left files.old) (F.left files.new) }
    ensures file_counts { NeverFell (F.faults files.old) (F.faults files.new) }
    ensures out_count { O.faults out.old ≤ O.faults out.new }
{
    faults_count_from_before();
    kept_files_are_within_limits();
    programs_run_as_their_source();
    programs_of_texts_are_small();
    let accepted = match accepted_of(alloc, source, files) {
        Ok(accepted) => accepted,
        Err(outcome) => return outcome,
    };
    match runner_of(alloc, &accepted) {
        Ok(runner) => run_over(alloc, runner, rows, files, out),
        Err(_) => Outcome::plain(alloc, Status::NoMemory),
    }
}

/// The C file of the accepted program of a small tree, loaded.
pub fn runner_of(alloc: Global, accepted: &AcceptedSource) -> Result<Runner, NoMemory>
    requires { IsOfSmallTree accepted.now.program }
    ensures one_trace { IfOk result (λ runner. OneTrace accepted.now.program.structs accepted.now.program.units accepted.now.program.entry
        (behaviour_of runner.parts)) }
    ensures course { IfOk result (λ runner. HasCourse accepted.now.program.structs accepted.now.program.units accepted.now.program.entry
        (course_of runner.parts)) }
    ensures fresh { IfOk result (λ runner. runner ≡ loaded runner.parts) }
{
    rows_of_bytes_fit();
    rows_of_lines_fit();
    let file = c_file(alloc, accepted)?;
    match Runner::load(alloc, file) {
        Ok(runner) => Ok(runner),
        Err((_, fault)) => Err(wanting(fault)),
    }
}

/// What the file of a program wants that isn't loaded: it is well formed and not too large.
fn wanting(fault: LoadFault) -> NoMemory
    requires { fault ≡ LoadFault.NoMemory }
{
    match fault {
        LoadFault::NoMemory => NoMemory,
        LoadFault::IllFormed { .. } | LoadFault::TooLarge { .. } => unreachable!(),
    }
}
