//! Ends of jobs, before their lines are written.

ghost use Rattle.std.specs.Prelude.{◌≡◌, IfOk};
ghost use Rattle.bl_top_commands.specs.inner.Outcomes.{IsTold};
ghost use Rattle.bl_top_commands.specs.Notes.{numbered_line};

use crate::status::Status;
use itoa::Buffer;
use std::alloc::{AllocError, Global};

/// How a job ended, before its line is written on `notes`.
#[derive(Drop)]
pub struct Outcome {
    pub status: Status,
    /// The line of a status that what was read decides; empty at every other status.
    pub line: Vec<u8>,
}

impl Outcome {
    /// An end of which the status says all.
    pub fn plain(alloc: Global, status: Status) -> Outcome
        ensures { result.status ≡ status }
    {
        Outcome {
            status,
            line: Vec::new(alloc),
        }
    }

    /// An end with a line of words and a number.
    pub fn numbered(alloc: Global, status: Status, words: &str, number: u64) -> Outcome
        ensures { IsTold status (numbered_line words.now number) result }
    {
        match numbered_line(alloc, words, number) {
            Ok(line) => Outcome { status, line },
            Err(_) => Outcome::plain(alloc, Status::NoMemory),
        }
    }
}

fn numbered_line(alloc: Global, words: &str, number: u64) -> Result<Vec<u8>, AllocError>
    ensures { IfOk result (λ line. line.items ≡ numbered_line words.now number) }
{
    let mut line = Vec::from_slice(alloc, words.as_bytes())?;
    let mut buffer = Buffer::new();
    line.extend_from_slice(buffer.format(number).as_bytes())?;
    line.extend_from_slice(b"\n")?;
    Ok(line)
}
