//! The tokens of a text up to where none begins.

ghost use Rattle.std.specs.Prelude.{◌≢◌, ◌≤◌, IfOk, MatchOption, length};
ghost use Rattle.bl_lex.specs.declared.piece.Form.TheVariants.{Outside};
ghost use Rattle.bl_lex.specs.Tokens.{BeginsNoToken, FrontOf};
ghost use Rattle.bl_lex.specs.inner.Steps.{IsLongestAt};

use crate::piece::{Form, Piece, piece_at};
use crate::scan::Scan;
use bl_tree::NoMemory;
use bl_tree::token::Token;
use std::alloc::Global;

/// The tokens of a text up to a place.
#[derive(Drop)]
pub struct Front {
    pub tokens: Vec<Token>,
    /// The first byte that begins no token, or else the end of the text.
    pub stop: usize,
}

/// The tokens of a text up to the first byte that begins none, whatever stands behind it. A word or number that the profile leaves
/// out begins none, while braces are tokens.
pub fn tokens_up_to(alloc: Global, text: &[u8]) -> Result<Front, NoMemory>
    requires short { length text.now ≤ 1048576 }
    ensures { IfOk result (λ front. FrontOf text.now front.tokens.items front.stop) }
{
    let mut scan = Scan::new(alloc);
    let mut at: usize = 0;
    while let Some(piece) = kept_piece_at(text, at) {
        scan.take(text, at, piece)?;
        at = piece.end;
    }
    Ok(Front {
        tokens: scan.tokens,
        stop: at,
    })
}

/// The longest piece that begins at a place, unless the profile leaves it out.
fn kept_piece_at(text: &[u8], at: usize) -> Option<Piece>
    requires inside { at ≤ length text.now }
    requires short { length text.now ≤ 1048576 }
    ensures { MatchOption result (BeginsNoToken text.now at) (λ piece. IsLongestAt text.now at piece × (piece.form ≢ Outside)) }
{
    if at == text.len() {
        return None;
    }
    match piece_at(text, at) {
        Ok(piece) => match piece.form {
            Form::Outside => None,
            Form::Blank | Form::Comment | Form::Token(_) => Some(piece),
        },
        Err(_) => None,
    }
}
