//! The lines of a job on `notes`, that of its status last.

ghost use Rattle.std.specs.Prelude.{◌≡◌, ◌≤◌};
ghost use Rattle.bl_top_commands.specs.Calls.{output_of};
ghost use Rattle.bl_top_commands.specs.inner.Outcomes.{line_in, lines_in};
ghost use Rattle.bl_top_commands.specs.Notes.{WritesLines, line_of};

use crate::answer::Answer;
use crate::outcome::Outcome;
use crate::status::Status;
use bl_io::{IoFault, Sink, write_all};

/// The status after the lines of an answer were written on `notes`: the same, or that of the write.
pub fn with_notes<N: Sink>(answer: &Answer, notes: &mut N) -> Status
    ensures written { WritesLines (output_of (N.faults notes.old) (N.faults notes.new) (N.held notes.old) (N.held notes.new))
        (lines_in answer.now) answer.now.outcome.status result }
    ensures count { N.faults notes.old ≤ N.faults notes.new }
{
    let told = answer.told.as_slice();
    if told.is_empty() {
        return with_note(&answer.outcome, notes);
    }
    match write_all(notes, told) {
        Ok(()) => with_note(&answer.outcome, notes),
        Err(IoFault::Failed) => Status::WriteFault,
        Err(IoFault::NoMemory) => Status::NoMemory,
    }
}

/// The status after its line was written on `notes`: the same, or that of the write.
fn with_note<N: Sink>(outcome: &Outcome, notes: &mut N) -> Status
    ensures written { WritesLines (output_of (N.faults notes.old) (N.faults notes.new) (N.held notes.old) (N.held notes.new))
        (line_in outcome.now) outcome.now.status result }
    ensures count { N.faults notes.old ≤ N.faults notes.new }
{
    let line = line_of(outcome);
    if line.is_empty() {
        return outcome.status;
    }
    match write_all(notes, line) {
        Ok(()) => outcome.status,
        Err(IoFault::Failed) => Status::WriteFault,
        Err(IoFault::NoMemory) => Status::NoMemory,
    }
}

fn line_of(outcome: &Outcome) -> &[u8]
    ensures { result.now ≡ line_in outcome.now }
{
    match outcome.status {
        Status::Refused
        | Status::BadRows
        | Status::NotSubset
        | Status::PlantFault
        | Status::PlantShape
        | Status::TooLarge
        | Status::BadState
        | Status::NotFace => &outcome.line,
        status => fixed_line(status).as_bytes(),
    }
}

/// The line of a status that decides it; none where what was read decides it.
fn fixed_line(status: Status) -> &'static str
    ensures { result.now ≡ line_of status }
{
    match status {
        Status::Usage => bl_top_args::usage(),
        Status::ReadFault => "read fault\n",
        Status::NoMemory => "no memory\n",
        Status::SaveEnded => "ended\n",
        _ => "",
    }
}
