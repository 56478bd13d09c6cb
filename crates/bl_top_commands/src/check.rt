//! The command `check P`.

ghost use Rattle.std.specs.Prelude.{◌≡◌, ◌≤◌, Some};
ghost use Rattle.bl_top_commands.specs.Calls.{Output, call_of, output_of};
ghost use Rattle.bl_top_commands.specs.Check.{CheckEnds, accepted_line};
ghost use Rattle.bl_top_commands.specs.inner.Outcomes.{line_in};
ghost use Rattle.bl_top_commands.specs.Notes.{line_of};
ghost use Rattle.bl_top_commands.specs.Reads.{Reads, files_read};
ghost use Rattle.bl_top_commands.specs.Results.{WritesResult};
ghost use Rattle.bl_io.specs.Count.{NeverFell};
ghost use Rattle.bl_top_args.specs.Jobs.{check};

use crate::outcome::Outcome;
use crate::source::accepted_of;
use crate::write::write_result;
use bl_io::{Files, Sink};
use std::alloc::Global;

/// Judges the source file of this name, and says where it is accepted.
pub fn check<F: Files, O: Sink>(alloc: Global, source: &str, files: &mut F, out: &mut O) -> Outcome
    ensures ends { (notes : Output) → CheckEnds
        (call_of (F.left files.old) (F.left files.new) (F.faults files.old) (F.faults files.new)
        (output_of (O.faults out.old) (O.faults out.new) (O.held out.old) (O.held out.new)) notes)
        source.now result.status (line_in result) }
    ensures reads { Reads (files_read (Some (check source.now))) (F.left files.old) (F.left files.new) }
    ensures file_counts { NeverFell (F.faults files.old) (F.faults files.new) }
    ensures out_count { O.faults out.old ≤ O.faults out.new }
{
    match accepted_of(alloc, source, files) {
        Ok(_) => say_accepted(alloc, out),
        Err(outcome) => outcome,
    }
}

fn say_accepted<O: Sink>(alloc: Global, out: &mut O) -> Outcome
    ensures writes { WritesResult (λ text. text ≡ accepted_line)
        (output_of (O.faults out.old) (O.faults out.new) (O.held out.old) (O.held out.new)) result.status }
    ensures line { line_in result ≡ line_of result.status }
    ensures out_count { O.faults out.old ≤ O.faults out.new }
{
    write_result(alloc, b"accepted\n", out)
}
