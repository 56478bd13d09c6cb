//! A whole text, read as a well-formed tree.

ghost use Rattle.std.specs.Prelude.{◌<◌, ◌^◌, length, IfErr, IfOk, OnOk};
ghost use Rattle.bl_lex.specs.Tokens.{Lexes};
ghost use Rattle.bl_parse.specs.Programs.{Spells};
ghost use Rattle.bl_parse_syntax.specs.Rules.{Fails, Passes};
ghost use Rattle.bl_tree.specs.Rules.{IsCause};

use crate::tree::WellFormedTree;
use bl_parse_laws::kept::what_is_spelled_keeps;
use bl_tree::Refusal;
use bl_tree::token::Token;
use std::alloc::Global;

/// The tree of a text with its tokens (docs/LANGUAGE.md, "Grammar"), or the failure of rule Depth or Syntax.
pub fn parse(alloc: Global, text: &[u8], tokens: &[Token]) -> Result<WellFormedTree, Refusal>
    requires short { length text.now < 2 ^ 32 }
    requires tokens { Lexes text.now tokens.now }
    ensures passes { OnOk result (Passes tokens.now) }
    ensures spells { IfOk result (λ tree. Spells text.now tokens.now tree.raw) }
    ensures refusal { IfErr result (IsCause (Fails (length text.now) tokens.now)) }
{
    what_is_spelled_keeps();
    match bl_parse::parse(alloc, text, tokens) {
        Ok(raw) => Ok(WellFormedTree { raw }),
        Err(refusal) => Err(refusal),
    }
}
