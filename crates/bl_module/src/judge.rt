//! A text judged behind a start, by the rules in their order.

ghost use Rattle.std.specs.Prelude.{◌≡◌, IfErr, IfOk, OnOk};
ghost use Rattle.bl_tree.specs.Rules.{IsCause};
ghost use Rattle.bl_module.specs.Own.{IsFaceOf};
ghost use Rattle.bl_module.specs.Rules.{FailsIn, PassesIn};

use crate::behind::Behind;
use crate::taken::{Taken, is_last};
use crate::tree::judge_tree;
use bl_face::Face;
use bl_lex::laws::tokens_are_one;
use bl_parse_laws::kept::what_is_spelled_keeps;
use bl_parse_laws::spelled::a_text_has_one_tree;
use bl_parse_syntax::laws::first_failure_is_one;
use bl_tree::Refusal;
use std::alloc::Global;

/// Judges the rules of a text behind a start, and gives its face.
pub fn judge(alloc: Global, text: &[u8], behind: Behind, taken: Taken) -> Result<Face, Refusal>
    ensures passes { OnOk result (PassesIn behind taken text.now) }
    ensures face { IfOk result (IsFaceOf behind text.now) }
    ensures cause { IfErr result (IsCause (FailsIn behind taken text.now)) }
{
    what_is_spelled_keeps();
    tokens_are_one();
    a_text_has_one_tree();
    first_failure_is_one();
    let tokens = match bl_lex::lex(alloc, text) {
        Ok(tokens) => tokens,
        Err(refusal) => return Err(refusal),
    };
    let raw = match bl_parse::parse(alloc, text, &tokens) {
        Ok(raw) => raw,
        Err(refusal) => return Err(refusal),
    };
    match judge_tree(alloc, behind, is_last(taken, &raw), &raw) {
        Ok(face) => Ok(face),
        Err(refusal) => Err(refusal),
    }
}
