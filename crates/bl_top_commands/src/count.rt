//! The command `count C ROWS`.

ghost use Rattle.std.specs.Prelude.{◌≤◌, Some};
ghost use Rattle.bl_top_commands.specs.Calls.{Output, call_of, output_of};
ghost use Rattle.bl_top_commands.specs.Count.{CountEnds};
ghost use Rattle.bl_top_commands.specs.inner.Outcomes.{line_in};
ghost use Rattle.bl_top_commands.specs.Reads.{Reads, files_read};
ghost use Rattle.bl_io.specs.Count.{NeverFell};
ghost use Rattle.bl_top_args.specs.Jobs.{count};

use crate::outcome::Outcome;
use crate::rows::count_over;
use crate::text::runner_of;
use bl_io::{Files, Sink};
use std::alloc::Global;

/// Runs the C text of the file of this name over a file of rows, and tells how many statements each tick executed.
pub fn count<F: Files, O: Sink>(
    alloc: Global,
    text: &str,
    rows: &str,
    files: &mut F,
    out: &mut O,
) -> Outcome
    ensures ends { (notes : Output) → CountEnds
        (call_of (F.left files.old) (F.left files.new) (F.faults files.old) (F.faults files.new)
        (output_of (O.faults out.old) (O.faults out.new) (O.held out.old) (O.held out.new)) notes)
        text.now rows.now result.status (line_in result) }
    ensures reads { Reads (files_read (Some (count text.now rows.now))) (F.left files.old) (F.left files.new) }
    ensures file_counts { NeverFell (F.faults files.old) (F.faults files.new) }
    ensures out_count { O.faults out.old ≤ O.faults out.new }
{
    match runner_of(alloc, text, files) {
        Ok(runner) => count_over(alloc, runner, rows, files, out),
        Err(outcome) => outcome,
    }
}
