//! A text behind its prelude, read from its front on.

ghost use Rattle.std.specs.Prelude.{◌≡◌, ◌≤◌, true, false, List, [], ◌∷◌, length, drop, IsTrue, IsFalse, IsNone, IfOk, IfSome};
ghost use Rattle.std.specs.Prelude.{OnOk, MatchResult};
ghost use Rattle.bl_grammar.specs.declared.symbol.Symbol.{Symbol};
ghost use Rattle.bl_ctext.specs.Token.{is_word};
ghost use Rattle.bl_ctext.specs.Spellable.{has_any};
ghost use Rattle.bl_cparse_syntax.specs.Pieces.{pieces, first_piece, is_same};
ghost use Rattle.bl_cparse_syntax.specs.Classes.{Class, matches};
ghost use Rattle.bl_cparse_syntax.specs.Grammar.{Wanted};
ghost use Rattle.bl_cparse_syntax.specs.Expects.{Expects};
ghost use Rattle.bl_cparse.specs.inner.Reading.{sign};
ghost use Rattle.bl_cparse.specs.Places.{WantsMemory};

use crate::refusal::CRefusal;
use bl_cparse_syntax::piece::next_piece;
use bl_tree::Text;
use std::alloc::{AllocError, Global};
use std::marker::Model;

/// What is left to read. Contracts see the pieces.
#[derive(Drop)]
pub struct Reader<'a> {
    alloc: Global,
    text: &'a [u8],
    /// Where the next piece stands; both are the text's length where none is left.
    start: usize,
    end: usize,
}

impl<'a> Model for Reader<'a> {
    ghost use Rattle.std.specs.Prelude.{ℕ, List};
    ghost use Rattle.bl_cparse_syntax.specs.Pieces.{left_of};
    ghost use Rattle.bl_cparse_syntax.specs.inner.Seen.{IsAt};

    ghost Value = { List (List ℕ) };

    ghost view = { λ r. left_of r.text.now r.start r.end };

    ghost invariant = { λ r. IsAt r.text.now r.start r.end };
}

impl<'a> Reader<'a> {
    pub fn new(alloc: Global, text: &'a [u8], at: usize) -> Reader<'a>
        requires short { length text.now ≤ 67108864 }
        requires inside { at ≤ length text.now }
        ensures { result ≡ pieces (drop at text.now) }
    {
        let first = next_piece(text, at);
        Reader {
            alloc,
            text,
            start: first.start,
            end: first.end,
        }
    }

    pub fn alloc(&self) -> Global {
        self.alloc
    }

    pub fn is_at_end(&self) -> bool
        ensures yes { IsTrue result → self.now ≡ [] }
        ensures no { IsFalse result → IsTrue (has_any self.now) }
    {
        self.start == self.end
    }

    /// The refusal of a text in which the next piece can't stand.
    pub fn refusal(&self) -> CRefusal {
        CRefusal::NotSubset {
            at: self.start as u32,
        }
    }

    /// The bytes of the next piece; no bytes where none is left.
    pub fn piece(&self) -> &[u8]
        ensures { result.now ≡ first_piece self.now }
    {
        &self.text[self.start..self.end]
    }

    pub fn sees(&self, what: &str) -> bool
        ensures same { result ≡ is_same (first_piece self.now) what.now }
        ensures is { result ≡ matches (Class.exactly what.now) (first_piece self.now) }
    {
        self.piece() == what.as_bytes()
    }

    /// Goes on behind the next piece.
    fn pass(&mut self)
        ensures { self.new ≡ drop 1 self.old }
    {
        let next = next_piece(self.text, self.end);
        self.start = next.start;
        self.end = next.end;
    }

    /// Goes on behind the next piece, of which there is one.
    pub fn skip(&mut self)
        requires { IsTrue (has_any (first_piece self.old)) }
        ensures passed { self.old ≡ first_piece self.old ∷ self.new }
        ensures follows { (class : Class) (rest : List Wanted) → Expects (Symbol.Terminal class ∷ rest) self.old → Expects rest self.new }
    {
        self.pass();
    }

    /// Passes the next piece where it is this one.
    pub fn eat(&mut self, what: &str) -> bool
        requires { IsTrue (has_any what.now) }
        ensures yes { IsTrue result → self.old ≡ what.now ∷ self.new }
        ensures no { result ≡ false → self.new ≡ self.old }
        ensures is { result ≡ matches (Class.exactly what.now) (first_piece self.old) }
        ensures follows { IsTrue result → (rest : List Wanted) → Expects (sign what.now ∷ rest) self.old → Expects rest self.new }
    {
        let seen = self.sees(what);
        if seen {
            self.pass();
        }
        seen
    }

    /// Passes the next piece, which is this one.
    pub fn take(&mut self, what: &str) -> Result<(), CRefusal>
        requires { IsTrue (has_any what.now) }
        ensures read { OnOk result (self.old ≡ what.now ∷ self.new) }
        ensures follows { (rest : List Wanted) → Expects (sign what.now ∷ rest) self.old → MatchResult result (λ _. Expects rest self.new) WantsMemory }
    {
        if self.eat(what) {
            Ok(())
        } else {
            Err(self.refusal())
        }
    }

    /// Passes the next piece, which is a word, and answers a copy of it.
    pub fn copy(&mut self) -> Result<Text, CRefusal>
        requires { IsTrue (is_word (first_piece self.old)) }
        ensures read { IfOk result (λ t. self.old ≡ t ∷ self.new) }
        ensures follows { (class : Class) (rest : List Wanted) → Expects (Symbol.Terminal class ∷ rest) self.old
            → MatchResult result (λ _. Expects rest self.new) WantsMemory }
    {
        let text = text_of(self.alloc, self.piece())?;
        self.pass();
        Ok(text)
    }
}

/// A copy of the bytes of a word.
fn text_of(alloc: Global, bytes: &[u8]) -> Result<Text, AllocError>
    requires { IsTrue (is_word bytes.now) }
    ensures { IfOk result (λ text. text ≡ bytes.now) }
{
    match str::from_utf8(bytes) {
        Ok(text) => Ok(Text::copy_of(alloc, text)?),
        Err(_) => unreachable!(),
    }
}
