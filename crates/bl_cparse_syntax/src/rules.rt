//! Whether the pieces of a text spell one of the subset.

ghost use Rattle.std.specs.Prelude.{◌≡◌, ◌≤◌, length, IfOk, MatchOption};
ghost use Rattle.bl_cparse_syntax.specs.Rules.{Passes, FailsFirst};

use crate::piece::next_piece;
use crate::seen::Seen;
use crate::stack::Stack;
use bl_tree::NoMemory;
use std::alloc::Global;

/// Where the pieces from an offset on stop beginning a text of the subset, if they spell none (docs/C_SUBSET.md, "Where a
/// text fails").
pub fn check(alloc: Global, text: &[u8], start: usize) -> Result<Option<usize>, NoMemory>
    requires { start ≤ length text.now }
    ensures { IfOk result (λ fault. MatchOption fault (Passes text.now start) (FailsFirst text.now start)) }
{
    let mut stack = Stack::new(alloc)?;
    let mut piece = next_piece(text, start);
    while piece.start < piece.end {
        let seen = Seen::new(&text[piece.start..piece.end]);
        if !stack.take(&seen)? {
            return Ok(Some(piece.start));
        }
        piece = next_piece(text, piece.end);
    }
    if stack.may_end() {
        Ok(None)
    } else {
        Ok(Some(text.len()))
    }
}
