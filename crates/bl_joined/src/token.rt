//! Tokens that are moved to where their text stands in a longer one.

ghost use Rattle.std.specs.Prelude.{◌≡◌, ◌++◌, All, OnOk, map};
ghost use Rattle.bl_joined.specs.Joined.{FitsBehind};
ghost use Rattle.bl_joined.specs.Texts.{moved_token};

use bl_tree::Place;
use bl_tree::token::Token;
use std::alloc::AllocError;

/// The token, where so many bytes with so many line feeds among them stand before its text.
fn moved(token: Token, offset: u32, lines: u32) -> Token
    requires fits { FitsBehind offset lines token }
    ensures { result ≡ moved_token offset lines token }
{
    Token {
        kind: token.kind,
        place: Place {
            start: offset + token.place.start,
            end: offset + token.place.end,
        },
        line: lines + token.line,
    }
}

/// Adds the tokens, moved.
pub fn push_moved(
    all: &mut Vec<Token>,
    tokens: &[Token],
    offset: u32,
    lines: u32,
) -> Result<(), AllocError>
    requires fit { All (λ token. FitsBehind offset lines token) tokens.now }
    ensures { OnOk result (all.new.items ≡ all.old.items ++ map (moved_token offset lines) tokens.now) }
{
    for token in tokens {
        all.push(moved(*token, offset, lines))?;
    }
    Ok(())
}
