//! What a job has for `notes`.

ghost use Rattle.std.specs.Prelude.{◌≡◌, []};
ghost use Rattle.bl_top_commands.specs.inner.Outcomes.{line_in, lines_in};

use crate::outcome::Outcome;
use std::alloc::Global;

/// How a job ended, and the lines that it has for `notes` before that of the status.
#[derive(Drop)]
pub struct Answer {
    pub told: Vec<u8>,
    pub outcome: Outcome,
}

impl Answer {
    /// An end with no line but that of the status.
    pub fn alone(alloc: Global, outcome: Outcome) -> Answer
        ensures outcome { result.outcome ≡ outcome }
        ensures told { result.told.items ≡ [] }
        ensures lines { lines_in result ≡ line_in outcome }
    {
        Answer {
            told: Vec::new(alloc),
            outcome,
        }
    }
}
