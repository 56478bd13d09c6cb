//! The rules Depth and Syntax over the tokens of a text.

ghost use Rattle.std.specs.Prelude.{◌≡◌, ℕ, List, [], ◌∷◌, ◌++◌, take, length, OnOk, IfErr, IfOk, MatchOption, option_map, Option};
ghost use Rattle.std.specs.List.{list_all};
ghost use Rattle.bl_tree.specs.Rules.{IsCause};
ghost use Rattle.bl_parse_syntax.specs.Grammar.{class_of, view_of};
ghost use Rattle.bl_parse_syntax.specs.Stack.{may_vanish, fault_at_end};
ghost use Rattle.bl_parse_syntax.specs.Rules.{Passes, SpellsProgram, Fails, FailsSyntax};

use crate::depth::too_deep;
use crate::grammar::{Class, TokenView};
use crate::stack::Stack;
use bl_tree::token::{Token, TokenKind};
use bl_tree::{List, NoMemory, Place, Refusal, Rule};
use std::alloc::Global;

/// Whether the tokens of a text of so many bytes nest no deeper than allowed and spell a program (docs/LANGUAGE.md,
/// "Rules": Depth and Syntax).
pub fn check(alloc: Global, text_length: u32, tokens: &[Token]) -> Result<(), Refusal>
    ensures passes { OnOk result (Passes tokens.now) }
    ensures refusal { IfErr result (IsCause (Fails text_length tokens.now)) }
{
    if let Some(place) = too_deep(tokens) {
        return Err(failed(alloc, Rule::Depth, place));
    }
    match first_fault(alloc, text_length, tokens) {
        Ok(Some(place)) => Err(failed(alloc, Rule::Syntax, place)),
        Ok(None) => Ok(()),
        Err(NoMemory) => Err(Refusal::NoMemory),
    }
}

fn failed(alloc: Global, rule: Rule, place: Place) -> Refusal
    ensures { result ≡ Refusal.Rule rule place [] }
{
    Refusal::Rule {
        rule,
        place,
        also: List::new(alloc),
    }
}

/// The place where the tokens stop beginning a program, if they spell none.
fn first_fault(alloc: Global, text_length: u32, tokens: &[Token]) -> Result<Option<Place>, NoMemory>
    ensures { IfOk result (λ fault. MatchOption fault (SpellsProgram tokens.now) (FailsSyntax text_length tokens.now)) }
{
    let mut stack = Stack::new(alloc)?;
    let mut line: Option<u32> = None;
    for token in tokens {
        if !stack.take(view_of(*token, line))? {
            return Ok(Some(token.place));
        }
        line = Some(token.line);
    }
    Ok(fault_at_end(&stack, text_length))
}

fn fault_at_end(stack: &Stack, text_length: u32) -> Option<Place>
    ensures { result ≡ fault_at_end (list_all may_vanish stack.now.symbols.items) text_length }
{
    if stack.may_end() {
        None
    } else {
        Some(Place {
            start: text_length,
            end: text_length,
        })
    }
}

/// The token as the grammar sees it, after a token on that line.
fn view_of(token: Token, line_before: Option<u32>) -> TokenView
    ensures { result ≡ view_of line_before token }
{
    TokenView {
        class: class_of(token.kind),
        fresh: line_before != Some(token.line),
    }
}

fn class_of(kind: TokenKind) -> Class
    ensures { result ≡ class_of kind }
{
    match kind {
        TokenKind::Name => Class::AnyName,
        TokenKind::Number(_) => Class::AnyNumber,
        TokenKind::Word(word) => Class::Keyword(word),
        TokenKind::Sign(sign) => Class::Mark(sign),
    }
}
