//! The command `link P P..`.

ghost use Rattle.std.specs.Prelude.{◌≤◌, length, map, string_bytes, Some};
ghost use Rattle.bl_io.specs.Count.{NeverFell};
ghost use Rattle.bl_top.specs.Link.{LinkEnds};
ghost use Rattle.bl_top_args.specs.Jobs.{link};
ghost use Rattle.bl_top_commands.specs.Calls.{Output, call_of, output_of};
ghost use Rattle.bl_top_commands.specs.inner.Outcomes.{line_in};
ghost use Rattle.bl_top_commands.specs.Reads.{Reads, files_read};

use crate::build::write_c;
use bl_io::{Files, Sink};
use bl_top_commands::linked::linked_of;
use bl_top_commands::outcome::Outcome;
use std::alloc::Global;

/// Writes the C text of the program of the source files of these names.
pub fn link<F: Files, O: Sink>(
    alloc: Global,
    sources: &[String],
    files: &mut F,
    out: &mut O,
) -> Outcome
    requires some { 1 ≤ length sources.now }
    requires few { length sources.now ≤ 64 }
    ensures ends { (notes : Output) → LinkEnds
        (call_of (F.left files.old) (F.left files.new) (F.faults files.old) (F.faults files.new)
        (output_of (O.faults out.old) (O.faults out.new) (O.held out.old) (O.held out.new)) notes)
        (map string_bytes sources.now) result.status (line_in result) }
    ensures reads { Reads (files_read (Some (link (map string_bytes sources.now)))) (F.left files.old) (F.left files.new) }
    ensures file_counts { NeverFell (F.faults files.old) (F.faults files.new) }
    ensures out_count { O.faults out.old ≤ O.faults out.new }
{
    match linked_of(alloc, sources, files) {
        Ok(accepted) => write_c(alloc, &accepted, out),
        Err(outcome) => outcome,
    }
}
