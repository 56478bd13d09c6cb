//! A text, read as a face.

ghost use Rattle.std.specs.Prelude.{◌≡◌, ◌≤◌, Some, length, IfOk, IfErr};
ghost use Rattle.bl_lex.specs.Tokens.{FrontOf};
ghost use Rattle.bl_face.specs.Lexemes.{lexemes};
ghost use Rattle.bl_face.specs.Reading.{ReadsAs, IsFaceFault};
ghost use Rattle.bl_face.specs.inner.Reader.{nothing_read, run};
ghost use Rattle.bl_face.specs.inner.Stops.{IsStop, TokensStand};

use crate::face::Face;
use crate::fault::FaceFault;
use crate::reader::Reader;
use bl_lex::tokens_up_to;
use bl_tree::NoMemory;
use bl_tree::token::Token;
use std::alloc::Global;

/// The most bytes that a text of a face may have.
const MOST_BYTES: usize = 1_048_576;

/// The face that the text spells. Else the place where the text stops being one, or want of memory.
pub fn read_face(alloc: Global, text: &[u8]) -> Result<Face, FaceFault>
    ensures face { IfOk result (ReadsAs text.now) }
    ensures fault { IfErr result (IsFaceFault text.now) }
{
    if text.len() > MOST_BYTES {
        return Err(FaceFault::NotFace {
            at: MOST_BYTES as u32,
        });
    }
    match tokens_up_to(alloc, text) {
        Ok(front) => read_front(alloc, text, &front.tokens, front.stop),
        Err(NoMemory) => Err(FaceFault::NoMemory),
    }
}

/// The face that these tokens of the text spell, which end where no token begins.
fn read_front(alloc: Global, text: &[u8], tokens: &[Token], stop: usize) -> Result<Face, FaceFault>
    requires short { length text.now ≤ 1048576 }
    requires front { FrontOf text.now tokens.now stop }
    ensures face { IfOk result (ReadsAs text.now) }
    ensures fault { IfErr result (IsFaceFault text.now) }
{
    let mut reader = read_tokens(alloc, text, tokens)?;
    if stop < text.len() {
        return Err(FaceFault::NotFace { at: stop as u32 });
    }
    match reader.finish(alloc) {
        Ok(Some(items)) => Ok(Face { items }),
        Ok(None) => Err(FaceFault::NotFace { at: stop as u32 }),
        Err(NoMemory) => Err(FaceFault::NoMemory),
    }
}

/// What is known behind all these tokens, or the first that can't follow.
fn read_tokens(alloc: Global, text: &[u8], tokens: &[Token]) -> Result<Reader, FaceFault>
    requires stand { TokensStand text.now tokens.now }
    ensures read { IfOk result (λ reader. run (Some nothing_read) (lexemes text.now tokens.now) ≡ Some reader) }
    ensures fault { IfErr result (IsStop text.now tokens.now) }
{
    let mut reader = Reader::new(alloc);
    for token in tokens {
        match reader.take(alloc, text, *token) {
            Ok(true) => {}
            Ok(false) => {
                return Err(FaceFault::NotFace {
                    at: token.place.start,
                });
            }
            Err(NoMemory) => return Err(FaceFault::NoMemory),
        }
    }
    Ok(reader)
}
