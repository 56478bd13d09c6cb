//! A table of a text, by which each of its positions is found in few steps.

ghost use Rattle.std.specs.Prelude.{◌≡◌, ◌+◌, ◌*◌, ◌^◌, ◌<◌, ◌≤◌, IfOk, IfSome, length};
ghost use Rattle.bl_lsp_text.specs.Positions.{position_at};
ghost use Rattle.bl_lsp_text.specs.Tables.{IsTable};

use crate::position::{Position, position_by};
use crate::stand::Stand;
use std::alloc::{AllocError, Global};

/// The bytes between two entries of a table.
pub const STEP: usize = 64;

/// Where a reader of a text stands before each 64th byte, and at the text's end.
#[derive(Drop)]
pub struct Lines {
    pub stands: Vec<Stand>,
}

impl Lines {
    /// The table of a text.
    pub fn of(alloc: Global, text: &[u8]) -> Result<Lines, AllocError>
        ensures { IfOk result (λ lines. IsTable text.now lines.stands.items) }
    {
        let size = text.len();
        let mut stands = Vec::new(alloc);
        let mut stand = Stand::start();
        let mut at: usize = 0;
        while at < size {
            stands.push(stand)?;
            let end = at + STEP.min(size - at);
            stand = stand.passed_all(&text[at..end]);
            at = end;
        }
        stands.push(stand)?;
        Ok(Lines { stands })
    }

    /// The position of an offset. One behind the text is at the text's end.
    pub fn position(&self, text: &[u8], offset: usize) -> Position
        requires { IsTable text.now self.now.stands.items }
        ensures { result ≡ position_at text.now offset }
    {
        let offset = offset.min(text.len());
        let k = offset / STEP;
        let stand = self.stands[k];
        position_by(stand.passed_all(&text[k * STEP..offset]))
    }
}
