//! Names, and the texts that they have.

ghost use Rattle.std.specs.Prelude.{◌≡◌, ◌+◌, ◌<◌, [], ◌∷◌, Some, length, slice_range, IfOk, OnOk};
ghost use Rattle.bl_tree.specs.declared.token.TokenKind.{TokenKind};
ghost use Rattle.bl_parse_syntax.specs.Grammar as grammar;
ghost use Rattle.bl_parse.specs.At.{kind_at, start_at, end_at, SpellsName};
ghost use Rattle.bl_parse.specs.inner.Reading.{Turns};

use crate::source::Source;
use bl_parse_tree::name::Name;
use bl_tree::token::TokenKind;
use bl_tree::{NoMemory, Place, Text};

/// Reads the name that stands next.
pub fn name(source: &Source, at: &mut usize) -> Result<Name, NoMemory>
    requires stands { kind_at source.now.tokens.now at.old ≡ Some TokenKind.Name }
    ensures spelled { IfOk result (λ name. SpellsName source.now.text.now source.now.tokens.now name at.old at.new) }
    ensures follows { OnOk result (Turns (grammar.name ∷ []) source.now.tokens.now at.old [] at.new) }
    ensures next { OnOk result (at.new ≡ at.old + 1) }
    ensures inside { OnOk result (at.old < length source.now.tokens.now) }
{
    let k = *at;
    source.take(at, TokenKind::Name);
    let text = text_at(source, k)?;
    let place = Place {
        start: source.start_at(k),
        end: source.end_at(k),
    };
    Ok(Name { text, place })
}

/// The text of the name at the position.
fn text_at(source: &Source, k: usize) -> Result<Text, NoMemory>
    requires stands { kind_at source.now.tokens.now k ≡ Some TokenKind.Name }
    ensures { IfOk result (λ text. text ≡ slice_range source.now.text.now (start_at source.now.tokens.now k) (end_at source.now.tokens.now k)) }
{
    let start = source.start_at(k) as usize;
    let end = source.end_at(k) as usize;
    match std::str::from_utf8(&source.text[start..end]) {
        Ok(text) => Ok(Text::copy_of(source.alloc, text)?),
        Err(_) => unreachable!(),
    }
}
