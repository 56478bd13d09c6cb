//! A text with its tokens, which are looked at by position.

ghost use Rattle.std.specs.Prelude.{◌≡◌, ◌+◌, ◌<◌, ◌↔◌, Some, false, IsTrue, IsFalse, IsSome, IsNone, IfSome, length, slice_get};
ghost use Rattle.bl_tree.specs.declared.token.TokenKind.{TokenKind};
ghost use Rattle.bl_parse.specs.At.{kind_at, start_at, end_at, span, Takes};
ghost use Rattle.bl_parse.specs.Expressions.{is_number};
ghost use Rattle.bl_parse.specs.inner.Reading.{NamesStand, NotNext};

use bl_tree::Place;
use bl_tree::token::{Token, TokenKind};
use std::alloc::Global;

/// Whether two kinds of tokens are one. A word is compared by its position.
fn is_kind(one: TokenKind, other: TokenKind) -> bool
    ensures { IsTrue result ↔ (one ≡ other) }
{
    match (one, other) {
        (TokenKind::Name, TokenKind::Name) => true,
        (TokenKind::Number(m), TokenKind::Number(n)) => m == n,
        (TokenKind::Word(v), TokenKind::Word(w)) => v == w,
        (TokenKind::Sign(m), TokenKind::Sign(n)) => m == n,
        _ => false,
    }
}

/// A text with its tokens, which are read at positions.
#[derive(Drop)]
pub struct Source<'a> {
    pub alloc: Global,
    pub text: &'a [u8],
    pub tokens: &'a [Token],
    pub ghost names: { NamesStand text.now tokens.now },
}

impl<'a> Source<'a> {
    pub fn token_at(&self, k: usize) -> Option<Token>
        ensures token { result ≡ slice_get self.now.tokens.now k }
        ensures inside { IsSome result → k < length self.now.tokens.now }
    {
        match self.tokens.get(k) {
            Some(token) => Some(*token),
            None => None,
        }
    }

    pub fn kind_at(&self, k: usize) -> Option<TokenKind>
        ensures kind { result ≡ kind_at self.now.tokens.now k }
        ensures inside { IsSome result → k < length self.now.tokens.now }
    {
        match self.tokens.get(k) {
            Some(token) => Some(token.kind),
            None => None,
        }
    }

    /// Where the token at the position begins.
    pub fn start_at(&self, k: usize) -> u32
        ensures { result ≡ start_at self.now.tokens.now k }
    {
        match self.tokens.get(k) {
            Some(token) => token.place.start,
            None => 0,
        }
    }

    /// Where the token at the position ends.
    pub fn end_at(&self, k: usize) -> u32
        ensures { result ≡ end_at self.now.tokens.now k }
    {
        match self.tokens.get(k) {
            Some(token) => token.place.end,
            None => 0,
        }
    }

    /// The place of the tokens from one position up to another.
    pub fn span(&self, from: usize, to: usize) -> Place
        ensures { result ≡ span self.now.tokens.now from to }
    {
        Place {
            start: self.start_at(from),
            end: self.end_at(to.saturating_sub(1)),
        }
    }

    pub fn stands(&self, k: usize, kind: TokenKind) -> bool
        ensures kind { IsTrue result ↔ (kind_at self.now.tokens.now k ≡ Some kind) }
        ensures not { IsFalse result → NotNext self.now.tokens.now k kind }
        ensures inside { IsTrue result → k < length self.now.tokens.now }
    {
        match self.tokens.get(k) {
            Some(token) => is_kind(token.kind, kind),
            None => false,
        }
    }

    /// The number at the position.
    pub fn number_at(&self, k: usize) -> Option<u128>
        ensures some { IfSome result (λ n. kind_at self.now.tokens.now k ≡ Some (TokenKind.Number n)) }
        ensures none { IsNone result → is_number (kind_at self.now.tokens.now k) ≡ false }
        ensures inside { IsSome result → k < length self.now.tokens.now }
    {
        match self.kind_at(k) {
            Some(TokenKind::Number(n)) => Some(n),
            _ => None,
        }
    }

    /// Passes the next token, which is of this kind.
    pub fn take(&self, at: &mut usize, kind: TokenKind)
        requires stands { kind_at self.now.tokens.now at.old ≡ Some kind }
        ensures taken { Takes self.now.tokens.now kind at.old at.new }
        ensures next { at.new ≡ at.old + 1 }
        ensures inside { at.old < length self.now.tokens.now }
    {
        let _stands = self.stands(*at, kind);
        *at += 1;
    }
}
