//! Results written on `out`.

ghost use Rattle.std.specs.Prelude.{◌≡◌, ◌≤◌};
ghost use Rattle.bl_top_commands.specs.Calls.{output_of};
ghost use Rattle.bl_top_commands.specs.inner.Outcomes.{line_in};
ghost use Rattle.bl_top_commands.specs.Notes.{line_of};
ghost use Rattle.bl_top_commands.specs.Results.{WritesResult};

use crate::outcome::Outcome;
use crate::status::Status;
use bl_io::{IoFault, Sink, write_all};
use std::alloc::Global;

/// Writes the whole result of a job.
pub fn write_result<O: Sink>(alloc: Global, text: &[u8], out: &mut O) -> Outcome
    ensures writes { WritesResult (λ written. written ≡ text.now)
        (output_of (O.faults out.old) (O.faults out.new) (O.held out.old) (O.held out.new)) result.status }
    ensures line { line_in result ≡ line_of result.status }
    ensures out_count { O.faults out.old ≤ O.faults out.new }
{
    match write_all(out, text) {
        Ok(()) => Outcome::plain(alloc, Status::Ok),
        Err(IoFault::Failed) => Outcome::plain(alloc, Status::WriteFault),
        Err(IoFault::NoMemory) => Outcome::plain(alloc, Status::NoMemory),
    }
}
