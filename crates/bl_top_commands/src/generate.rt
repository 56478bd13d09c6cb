//! The command `gen N`.

ghost use Rattle.std.specs.Prelude.{◌≡◌, ◌≢◌, ◌≤◌, ℕ, List, [], Option};
ghost use Rattle.bl_top_commands.specs.Calls.{Count, Output, output_of};
ghost use Rattle.bl_top_commands.specs.Gen.{GenEnds, IsNotRun, last_status};
ghost use Rattle.bl_top_commands.specs.inner.Outcomes.{line_in};
ghost use Rattle.bl_top_commands.specs.Notes.{WritesLines, line_of};
ghost use Rattle.bl_gen_run.specs.Runs.{IsUnrun};
ghost use Rattle.bl_top_args.specs.Jobs.{Word};

use crate::outcome::Outcome;
use crate::source::refused;
use crate::status::Status;
use crate::text::too_large;
use bl_gen_run::{Run, Unrun, run};
use bl_io::{IoFault, Sink, write_all};
use bl_tree::Last;
use std::alloc::Global;

/// Makes the program of so many stages, runs it over its rows, and writes what its trace comes to.
pub fn generate<O: Sink>(alloc: Global, stages: u32, out: &mut O) -> Outcome
    requires { 1 ≤ stages }
    ensures ends { (left rest : Word → Option (List ℕ)) (file : Word → Count) (notes : Output) → GenEnds (record {
      left = left;
      rest = rest;
      file = file;
      out = output_of (O.faults out.old) (O.faults out.new) (O.held out.old) (O.held out.new);
      notes = notes;
    }) stages result.status (line_in result) }
    ensures out_count { O.faults out.old ≤ O.faults out.new }
{
    match run(alloc, stages) {
        Ok(run) => write_run(alloc, &run, out),
        Err(unrun) => not_run(alloc, &unrun),
    }
}

/// How the job ends where nothing was run.
fn not_run(alloc: Global, unrun: &Unrun) -> Outcome
    ensures { (stages : ℕ) → IsUnrun stages unrun.now → IsNotRun stages result.status (line_in result) }
{
    match unrun {
        Unrun::TooLarge { stages } => too_large(alloc, u64::from(*stages)),
        Unrun::Refused(refusal) => refused(alloc, refusal),
    }
}

/// Writes what is told of a run.
fn write_run<O: Sink>(alloc: Global, run: &Run, out: &mut O) -> Outcome
    requires { run.now.text.items ≢ [] }
    ensures written { WritesLines (output_of (O.faults out.old) (O.faults out.new) (O.held out.old) (O.held out.new))
        run.now.text.items (last_status run.now.last) result.status }
    ensures line { line_in result ≡ line_of result.status }
    ensures out_count { O.faults out.old ≤ O.faults out.new }
{
    match write_all(out, run.text.as_slice()) {
        Ok(()) => end_at(alloc, run.last),
        Err(IoFault::Failed) => Outcome::plain(alloc, Status::WriteFault),
        Err(IoFault::NoMemory) => Outcome::plain(alloc, Status::NoMemory),
    }
}

/// How the job ends of a run that stands so.
fn end_at(alloc: Global, last: Last) -> Outcome
    ensures status { result.status ≡ last_status last }
    ensures line { line_in result ≡ line_of result.status }
{
    match last {
        Last::Open | Last::Ended => Outcome::plain(alloc, Status::Ok),
        Last::Trap => Outcome::plain(alloc, Status::Trapped),
    }
}
