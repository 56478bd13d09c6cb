//! The recogniser: a stack of what the tokens that follow must spell.

ghost use Rattle.std.specs.Prelude.{◌≡◌, ℕ, true, List, [], ◌∷◌, ◌++◌, reverse, IfOk, OnOk};
ghost use Rattle.std.specs.List.{list_all};
ghost use Rattle.bl_parse_syntax.specs.Stack.{IsGood, SourceStackCompletes, StackAnswers, may_vanish};
ghost use Rattle.bl_parse_syntax.specs.Grammar.{the};

use crate::choice::{Piece, is_same, may_be_absent, pick};
use crate::grammar::{Part, TokenView};
use bl_grammar::Symbol;
use bl_tree::NoMemory;
use std::alloc::Global;

/// What must follow; the last symbol comes first.
#[derive(Drop)]
pub struct Stack {
    pub symbols: Vec<Piece>,
}

impl Stack {
    /// A whole program must follow.
    pub fn new(alloc: Global) -> Result<Stack, NoMemory>
        ensures { IfOk result (λ stack. SourceStackCompletes [] (reverse stack.symbols.items)) }
    {
        let mut symbols = Vec::new(alloc);
        if symbols.push(Symbol::Nonterminal(Part::Program)).is_err() {
            return Err(NoMemory);
        }
        Ok(Stack { symbols })
    }

    /// Whether the token can follow. If so, it is taken off.
    pub fn take(&mut self, next: TokenView) -> Result<bool, NoMemory>
        requires { IsGood (reverse self.old.symbols.items) }
        ensures { IfOk result (λ taken. StackAnswers next (reverse self.old.symbols.items) taken (reverse self.new.symbols.items)) }
    {
        while let Some(symbol) = self.symbols.pop() {
            match symbol {
                Symbol::Terminal(class) => return Ok(is_same(class, next.class)),
                Symbol::Nonterminal(part) => match pick(part, next) {
                    Some(production) => push_all(&mut self.symbols, production)?,
                    None => return Ok(false),
                },
            }
        }
        Ok(false)
    }

    /// Nothing more need follow.
    pub fn may_end(&self) -> bool
        ensures { result ≡ list_all may_vanish self.now.symbols.items }
    {
        self.symbols.iter().all(|symbol| may_vanish(*symbol))
    }
}

/// The symbol may stand for nothing.
fn may_vanish(symbol: Piece) -> bool
    ensures { result ≡ may_vanish symbol }
{
    match symbol {
        Symbol::Terminal(_) => false,
        Symbol::Nonterminal(part) => may_be_absent(part),
    }
}

/// Puts the symbols on the stack, so that the first comes first.
fn push_all(symbols: &mut Vec<Piece>, production: &[Piece]) -> Result<(), NoMemory>
    ensures { OnOk result (reverse symbols.new.items ≡ production.now ++ reverse symbols.old.items) }
{
    let mut left = production.len();
    while left > 0 {
        left -= 1;
        if symbols.push(production[left]).is_err() {
            return Err(NoMemory);
        }
    }
    Ok(())
}
