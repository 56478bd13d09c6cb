//! The command `build P`.

ghost use Rattle.std.specs.Prelude.{◌≡◌, ◌≤◌, IfOk, Some};
ghost use Rattle.bl_top_commands.specs.Calls.{Output, call_of, output_of};
ghost use Rattle.bl_top_commands.specs.inner.Outcomes.{line_in};
ghost use Rattle.bl_top_commands.specs.Notes.{line_of};
ghost use Rattle.bl_top_commands.specs.Reads.{Reads, files_read};
ghost use Rattle.bl_top_commands.specs.Results.{WritesResult};
ghost use Rattle.bl_io.specs.Count.{NeverFell};
ghost use Rattle.bl_rules_laws_sizes.specs.Small.{IsOfSmallTree};
ghost use Rattle.bl_top.specs.Build.{BuildEnds, IsBuiltOfProgram};
ghost use Rattle.bl_top_args.specs.Jobs.{build};

use crate::emitted::c_file;
use bl_io::{Files, Sink};
use bl_rules::AcceptedSource;
use bl_rules_laws_sizes::programs_of_texts_are_small;
use bl_top_commands::outcome::Outcome;
use bl_top_commands::source::accepted_of;
use bl_top_commands::status::Status;
use bl_top_commands::write::write_result;
use bl_tree::NoMemory;
use std::alloc::Global;

/// Writes the C text of the source file of this name.
pub fn build<F: Files, O: Sink>(alloc: Global, source: &str, files: &mut F, out: &mut O) -> Outcome
    ensures ends { (notes : Output) → BuildEnds
        (call_of (F.left files.old) (F.left files.new) (F.faults files.old) (F.faults files.new)
        (output_of (O.faults out.old) (O.faults out.new) (O.held out.old) (O.held out.new)) notes)
        source.now result.status (line_in result) }
    ensures reads { Reads (files_read (Some (build source.now))) (F.left files.old) (F.left files.new) }
    ensures file_counts { NeverFell (F.faults files.old) (F.faults files.new) }
    ensures out_count { O.faults out.old ≤ O.faults out.new }
{
    programs_of_texts_are_small();
    match accepted_of(alloc, source, files) {
        Ok(accepted) => write_c(alloc, &accepted, out),
        Err(outcome) => outcome,
    }
}

/// Writes the C text of the accepted program of a small tree.
pub fn write_c<O: Sink>(alloc: Global, accepted: &AcceptedSource, out: &mut O) -> Outcome
    requires { IsOfSmallTree accepted.now.program }
    ensures writes { WritesResult (IsBuiltOfProgram accepted.now.program.structs accepted.now.program.units accepted.now.program.entry)
        (output_of (O.faults out.old) (O.faults out.new) (O.held out.old) (O.held out.new)) result.status }
    ensures line { line_in result ≡ line_of result.status }
    ensures out_count { O.faults out.old ≤ O.faults out.new }
{
    let text = match c_text(alloc, accepted) {
        Ok(text) => text,
        Err(_) => return Outcome::plain(alloc, Status::NoMemory),
    };
    write_result(alloc, &text, out)
}

/// The C text of it.
fn c_text(alloc: Global, accepted: &AcceptedSource) -> Result<Vec<u8>, NoMemory>
    requires { IsOfSmallTree accepted.now.program }
    ensures { IfOk result (λ text. IsBuiltOfProgram accepted.now.program.structs accepted.now.program.units accepted.now.program.entry text.items) }
{
    let file = c_file(alloc, accepted)?;
    match bl_ctext::print(alloc, &file) {
        Ok(text) => Ok(text),
        Err(error) => Err(error),
    }
}
