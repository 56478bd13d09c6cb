//! The command `resume C STATE ROWS`.

ghost use Rattle.std.specs.Prelude.{◌≤◌, Some};
ghost use Rattle.bl_top_commands.specs.Calls.{Output, call_of, output_of};
ghost use Rattle.bl_top_commands.specs.inner.Outcomes.{line_in};
ghost use Rattle.bl_top_commands.specs.Reads.{Reads, files_read};
ghost use Rattle.bl_top_commands.specs.Save.{ResumeEnds};
ghost use Rattle.bl_io.specs.Count.{NeverFell};
ghost use Rattle.bl_top_args.specs.Jobs.{resume};

use crate::outcome::Outcome;
use crate::rows::go_over;
use crate::state::restore_from;
use crate::text::runner_of;
use bl_io::{Files, Sink};
use std::alloc::Global;

/// Runs the C text of a file from a saved state over a file of rows, numbered from 1.
pub fn resume<F: Files, O: Sink>(
    alloc: Global,
    text: &str,
    state: &str,
    rows: &str,
    files: &mut F,
    out: &mut O,
) -> Outcome
    ensures ends { (notes : Output) → ResumeEnds
        (call_of (F.left files.old) (F.left files.new) (F.faults files.old) (F.faults files.new)
        (output_of (O.faults out.old) (O.faults out.new) (O.held out.old) (O.held out.new)) notes)
        text.now state.now rows.now result.status (line_in result) }
    ensures reads { Reads (files_read (Some (resume text.now state.now rows.now))) (F.left files.old) (F.left files.new) }
    ensures file_counts { NeverFell (F.faults files.old) (F.faults files.new) }
    ensures out_count { O.faults out.old ≤ O.faults out.new }
{
    let mut runner = match runner_of(alloc, text, files) {
        Ok(runner) => runner,
        Err(outcome) => return outcome,
    };
    match restore_from(alloc, &mut runner, state, files) {
        Ok(()) => go_over(alloc, runner, rows, files, out),
        Err(outcome) => outcome,
    }
}
