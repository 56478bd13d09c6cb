//! The commands `save C ROWS` and `save C STATE ROWS`.

ghost use Rattle.std.specs.Prelude.{◌≤◌, Some};
ghost use Rattle.bl_top_commands.specs.Calls.{Output, call_of, output_of};
ghost use Rattle.bl_top_commands.specs.inner.Outcomes.{line_in};
ghost use Rattle.bl_top_commands.specs.Reads.{Reads, files_read};
ghost use Rattle.bl_top_commands.specs.Save.{SaveEnds, SaveFromEnds};
ghost use Rattle.bl_io.specs.Count.{NeverFell};
ghost use Rattle.bl_top_args.specs.Jobs.{save, save_from};

use crate::outcome::Outcome;
use crate::state::{restore_from, save_over};
use crate::status::Status;
use crate::text::runner_of;
use bl_io::{Files, Sink};
use std::alloc::Global;

/// Runs the C text of a file over a file of rows, and writes the state after them.
pub fn save<F: Files, O: Sink>(
    alloc: Global,
    text: &str,
    rows: &str,
    files: &mut F,
    out: &mut O,
) -> Outcome
    ensures ends { (notes : Output) → SaveEnds
        (call_of (F.left files.old) (F.left files.new) (F.faults files.old) (F.faults files.new)
        (output_of (O.faults out.old) (O.faults out.new) (O.held out.old) (O.held out.new)) notes)
        text.now rows.now result.status (line_in result) }
    ensures reads { Reads (files_read (Some (save text.now rows.now))) (F.left files.old) (F.left files.new) }
    ensures file_counts { NeverFell (F.faults files.old) (F.faults files.new) }
    ensures out_count { O.faults out.old ≤ O.faults out.new }
{
    let runner = match runner_of(alloc, text, files) {
        Ok(runner) => runner,
        Err(outcome) => return outcome,
    };
    if !runner.ready() {
        return Outcome::plain(alloc, Status::Trapped);
    }
    save_over(alloc, runner, rows, files, out)
}

/// The same from a saved state.
pub fn save_from<F: Files, O: Sink>(
    alloc: Global,
    text: &str,
    state: &str,
    rows: &str,
    files: &mut F,
    out: &mut O,
) -> Outcome
    ensures ends { (notes : Output) → SaveFromEnds
        (call_of (F.left files.old) (F.left files.new) (F.faults files.old) (F.faults files.new)
        (output_of (O.faults out.old) (O.faults out.new) (O.held out.old) (O.held out.new)) notes)
        text.now state.now rows.now result.status (line_in result) }
    ensures reads { Reads (files_read (Some (save_from text.now state.now rows.now))) (F.left files.old) (F.left files.new) }
    ensures file_counts { NeverFell (F.faults files.old) (F.faults files.new) }
    ensures out_count { O.faults out.old ≤ O.faults out.new }
{
    let mut runner = match runner_of(alloc, text, files) {
        Ok(runner) => runner,
        Err(outcome) => return outcome,
    };
    match restore_from(alloc, &mut runner, state, files) {
        Ok(()) => save_over(alloc, runner, rows, files, out),
        Err(outcome) => outcome,
    }
}
