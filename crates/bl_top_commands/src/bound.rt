//! The command `bound C`.

ghost use Rattle.std.specs.Prelude.{◌≤◌, IfErr, IfOk, Some};
ghost use Rattle.bl_top_commands.specs.Bound.{BoundEnds};
ghost use Rattle.bl_top_commands.specs.Calls.{Output, call_of, output_of};
ghost use Rattle.bl_top_commands.specs.Exec.{TextStops};
ghost use Rattle.bl_top_commands.specs.inner.Outcomes.{line_in};
ghost use Rattle.bl_top_commands.specs.inner.Texts.{HasBounds};
ghost use Rattle.bl_top_commands.specs.Reads.{Reads, files_read, text_limit};
ghost use Rattle.bl_io.specs.Count.{NeverFell};
ghost use Rattle.bl_io.specs.Left.{KeepsOthers, StandsFurther};
ghost use Rattle.bl_top_args.specs.Jobs.{bound};

use crate::outcome::Outcome;
use crate::status::Status;
use crate::text::{end_at_load, file_of};
use crate::write::write_result;
use bl_bound::bound_text;
use bl_bound_laws::texts_are_bounded;
use bl_crun::check;
use bl_io::{Files, Sink};
use std::alloc::Global;

/// Tells how many statements each function of the C text of the file of this name can execute.
pub fn bound<F: Files, O: Sink>(alloc: Global, text: &str, files: &mut F, out: &mut O) -> Outcome
    ensures ends { (notes : Output) → BoundEnds
        (call_of (F.left files.old) (F.left files.new) (F.faults files.old) (F.faults files.new)
        (output_of (O.faults out.old) (O.faults out.new) (O.held out.old) (O.held out.new)) notes)
        text.now result.status (line_in result) }
    ensures reads { Reads (files_read (Some (bound text.now))) (F.left files.old) (F.left files.new) }
    ensures file_counts { NeverFell (F.faults files.old) (F.faults files.new) }
    ensures out_count { O.faults out.old ≤ O.faults out.new }
{
    match bounds_of(alloc, text, files) {
        Ok(bounds) => write_result(alloc, &bounds, out),
        Err(outcome) => outcome,
    }
}

/// The lines of the functions, or how the job ends.
fn bounds_of<F: Files>(alloc: Global, text: &str, files: &mut F) -> Result<Vec<u8>, Outcome>
    ensures bounds { IfOk result (λ bounds. HasBounds (F.left files.old text.now) bounds.items) }
    ensures stopped { IfErr result (λ outcome. TextStops (F.left files.old text.now)
        (record { before = F.faults files.old text.now; after = F.faults files.new text.now }) outcome.status (line_in outcome)) }
    ensures further { StandsFurther text_limit (F.left files.old text.now) (F.left files.new text.now) }
    ensures others { KeepsOthers text.now (F.left files.old) (F.left files.new) }
    ensures file_counts { NeverFell (F.faults files.old) (F.faults files.new) }
{
    let file = match file_of(alloc, text, files) {
        Ok(file) => file,
        Err(outcome) => return Err(outcome),
    };
    texts_are_bounded(&file);
    match check(alloc, &file) {
        Ok(()) => {}
        Err(fault) => return Err(end_at_load(alloc, fault)),
    }
    match bound_text(alloc, &file) {
        Ok(bounds) => Ok(bounds),
        Err(_) => Err(Outcome::plain(alloc, Status::NoMemory)),
    }
}
