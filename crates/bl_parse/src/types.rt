//! Types: scalar types, names of structs, and arrays.

ghost use Rattle.std.specs.Prelude.{◌≡◌, ◌+◌, ◌<◌, [], ◌∷◌, length, IfOk, OnOk};
ghost use Rattle.bl_lex.specs.declared.sign.TheConstants.{OPEN_BRACKET, CLOSE_BRACKET};
ghost use Rattle.bl_parse_syntax.specs.declared.grammar.Part.{Part};
ghost use Rattle.bl_parse_syntax.specs.Grammar.{the};
ghost use Rattle.bl_parse_syntax.specs.Grammar as grammar;
ghost use Rattle.bl_parse.specs.inner.Reading.{just, Awaits, Turns};
ghost use Rattle.bl_parse.specs.Operators.{SpellsScalar};
ghost use Rattle.bl_parse.specs.Types.{SpellsLength, SpellsType};

use crate::name::name;
use crate::scalar::scalar;
use crate::source::Source;
use bl_lex::sign;
use bl_parse_tree::types::{RawLength, RawNumber, RawType};
use bl_tree::token::TokenKind;
use bl_tree::{Box, NoMemory, Scalar};

/// Reads a type.
#[cycle(types)]
pub fn read_type(source: &Source, at: &mut usize) -> Result<RawType, NoMemory>
    requires awaits { Awaits (just Part.Ty) source.now.tokens.now at.old }
    ensures spelled { IfOk result (λ ty. SpellsType source.now.text.now source.now.tokens.now ty at.old at.new) }
    ensures follows { OnOk result (Turns (just Part.Ty) source.now.tokens.now at.old [] at.new) }
    ensures ahead { OnOk result (at.old < at.new) }
{
    match source.kind_at(*at) {
        Some(TokenKind::Sign(_)) => {
            let ty = array(source, at)?;
            Ok(ty)
        }
        Some(TokenKind::Name) => Ok(RawType::Struct(name(source, at)?)),
        Some(TokenKind::Word(_)) => Ok(RawType::Scalar(read_scalar(source, at)?)),
        Some(TokenKind::Number(_)) => unreachable!(),
        None => unreachable!(),
    }
}

/// Reads the type of an array.
#[cycle(types)]
fn array(source: &Source, at: &mut usize) -> Result<RawType, NoMemory>
    requires awaits { Awaits
        (grammar.sign OPEN_BRACKET ∷ the Part.Length ∷ grammar.sign CLOSE_BRACKET ∷ the Part.Ty ∷ []) source.now.tokens.now at.old }
    ensures spelled { IfOk result (λ ty. SpellsType source.now.text.now source.now.tokens.now ty at.old at.new) }
    ensures follows { OnOk result
        (Turns (grammar.sign OPEN_BRACKET ∷ the Part.Length ∷ grammar.sign CLOSE_BRACKET ∷ the Part.Ty ∷ []) source.now.tokens.now
        at.old [] at.new) }
    ensures ahead { OnOk result (at.old < at.new) }
{
    source.take(at, TokenKind::Sign(sign::OPEN_BRACKET));
    let length = read_length(source, at)?;
    source.take(at, TokenKind::Sign(sign::CLOSE_BRACKET));
    let element = read_type(source, at)?;
    Ok(RawType::Array(length, Box::new(source.alloc, element)?))
}

/// Reads the name of a type without parts.
pub fn read_scalar(source: &Source, at: &mut usize) -> Result<Scalar, NoMemory>
    requires awaits { Awaits (just Part.Scalar) source.now.tokens.now at.old }
    ensures spelled { IfOk result (λ s. SpellsScalar source.now.tokens.now s at.old at.new) }
    ensures follows { OnOk result (Turns (just Part.Scalar) source.now.tokens.now at.old [] at.new) }
    ensures next { OnOk result (at.new ≡ at.old + 1) }
    ensures inside { OnOk result (at.old < length source.now.tokens.now) }
{
    match source.kind_at(*at) {
        Some(kind) => match scalar(kind) {
            Some(s) => {
                *at += 1;
                Ok(s)
            }
            None => unreachable!(),
        },
        None => unreachable!(),
    }
}

fn read_length(source: &Source, at: &mut usize) -> Result<RawLength, NoMemory>
    requires awaits { Awaits (just Part.Length) source.now.tokens.now at.old }
    ensures spelled { IfOk result (λ n. SpellsLength source.now.text.now source.now.tokens.now n at.old at.new) }
    ensures follows { OnOk result (Turns (just Part.Length) source.now.tokens.now at.old [] at.new) }
    ensures next { OnOk result (at.new ≡ at.old + 1) }
    ensures inside { OnOk result (at.old < length source.now.tokens.now) }
{
    match source.number_at(*at) {
        Some(value) => {
            let place = source.span(*at, *at + 1);
            *at += 1;
            Ok(RawLength::Number(RawNumber { place, value }))
        }
        None => Ok(RawLength::Constant(name(source, at)?)),
    }
}
