//! A whole text: judged by its nesting and its grammar, and read.

ghost use Rattle.std.specs.Prelude.{◌<◌, ◌^◌, length, IfOk, IfErr, OnOk};
ghost use Rattle.bl_tree.specs.Rules.{IsCause};
ghost use Rattle.bl_lex.specs.Tokens.{Lexes};
ghost use Rattle.bl_parse_syntax.specs.Rules.{Fails, Passes, SpellsProgram};
ghost use Rattle.bl_parse.specs.Programs.{Spells};
ghost use Rattle.bl_parse.specs.inner.Reading.{NamesStand};

use crate::item::items;
use crate::source::Source;
use bl_parse_syntax::check;
use bl_parse_tree::Raw;
use bl_tree::token::Token;
use bl_tree::{NoMemory, Refusal};
use std::alloc::Global;

/// The raw tree of a text with its tokens (docs/LANGUAGE.md, "Grammar"), or the failure of rule Depth or Syntax.
pub fn parse(alloc: Global, text: &[u8], tokens: &[Token]) -> Result<Raw, Refusal>
    requires short { length text.now < 2 ^ 32 }
    requires tokens { Lexes text.now tokens.now }
    ensures passes { OnOk result (Passes tokens.now) }
    ensures spells { IfOk result (Spells text.now tokens.now) }
    ensures refusal { IfErr result (IsCause (Fails (length text.now) tokens.now)) }
{
    match check(alloc, text.len() as u32, tokens) {
        Ok(()) => match read(alloc, text, tokens) {
            Ok(raw) => Ok(raw),
            Err(NoMemory) => Err(Refusal::NoMemory),
        },
        Err(refusal) => Err(refusal),
    }
}

/// The raw tree of a text with the tokens of a program.
fn read(alloc: Global, text: &[u8], tokens: &[Token]) -> Result<Raw, NoMemory>
    requires short { length text.now < 2 ^ 32 }
    requires names { NamesStand text.now tokens.now }
    requires program { SpellsProgram tokens.now }
    ensures { IfOk result (Spells text.now tokens.now) }
{
    let source = Source {
        alloc,
        text,
        tokens,
    };
    let items = items(&source)?;
    Ok(Raw {
        items,
        bytes: text.len() as u32,
    })
}
