//! The text that is written, token by token.

ghost use Rattle.std.specs.Prelude.{◌≡◌, ℕ, List, [], ◌∷◌, ◌++◌, IsTrue, IfOk, OnOk, OnErr};
ghost use Rattle.bl_ctext.specs.Prelude.{prelude};
ghost use Rattle.bl_ctext.specs.Token.{is_token, SpacedC};
ghost use Rattle.bl_ctext.specs.inner.Cut.{joins, may_merge, tokens_in, are_tokens, is_piece, parted};

use crate::prelude::PRELUDE;
use crate::token_bytes::{is_double_sign, is_word_byte};
use bl_tree::NoMemory;
use std::alloc::{AllocError, Global};
use std::marker::Model;

/// A text that begins with the prelude and is written from its front on. Contracts see its tokens: white space is free.
#[derive(Drop)]
pub struct Writer {
    text: Vec<u8>,
}

impl Model for Writer {
    ghost use Rattle.std.specs.Prelude.{ℕ, List};
    ghost use Rattle.bl_ctext.specs.inner.Cut.{tokens_in, behind_prelude, IsText};

    ghost Value = { List (List ℕ) };

    ghost view = { λ writer. tokens_in (behind_prelude writer.text.items) };

    ghost invariant = { λ writer. IsText writer.text.items };
}

impl Writer {
    pub fn new(alloc: Global) -> Result<Writer, NoMemory>
        ensures { IfOk result (λ writer. writer ≡ []) }
    {
        let text = Vec::from_slice(alloc, PRELUDE)?;
        Ok(Writer { text })
    }

    /// Writes the bytes, behind a space where their first would go on the last token.
    pub fn write(&mut self, text: &str) -> Result<(), NoMemory>
        requires { IsTrue (are_tokens (tokens_in text.now)) }
        ensures { OnOk result (self.new ≡ self.old ++ tokens_in text.now) }
    {
        let next = text.as_bytes();
        part(&mut self.text, next)?;
        self.text.extend_from_slice(next)?;
        Ok(())
    }

    pub fn token(&mut self, text: &str) -> Result<(), NoMemory>
        requires { IsTrue (is_token text.now) }
        ensures { OnOk result (self.new ≡ self.old ++ text.now ∷ []) }
    {
        self.write(text)
    }

    /// Writes bytes that begin a token of their own, whatever stands before them.
    pub fn piece(&mut self, text: &str) -> Result<(), NoMemory>
        requires { IsTrue (is_piece text.now) }
        ensures { OnOk result (self.new ≡ self.old ++ tokens_in text.now) }
    {
        self.text.extend_from_slice(text.as_bytes())?;
        Ok(())
    }

    /// Writes one byte that begins a token of its own, by fewer instructions than a text of it.
    pub fn byte(&mut self, byte: u8) -> Result<(), NoMemory>
        requires { IsTrue (is_piece (byte ∷ [])) }
        ensures { OnOk result (self.new ≡ self.old ++ tokens_in (byte ∷ [])) }
    {
        put(&mut self.text, byte)?;
        Ok(())
    }

    /// Begins a line inside so many blocks.
    pub fn line(&mut self, level: u8) -> Result<(), NoMemory>
        ensures { OnOk result (self.new ≡ self.old) }
    {
        self.piece(indentation(level))
    }

    pub fn finish(self) -> Vec<u8>
        ensures { (text : List ℕ) × ((result.items ≡ prelude ++ text) × SpacedC self text) }
    {
        let Writer { text } = self;
        text
    }
}

/// A line feed and the blanks before a line inside so many blocks: at most 20 times four, so that the text stays linear in
/// the size of its tree.
fn indentation(level: u8) -> &'static str
    ensures none { tokens_in result.now ≡ [] }
    ensures apart { IsTrue (is_piece result.now) }
{
    match level {
        0 => "\n",
        1 => "\n    ",
        2 => "\n        ",
        3 => "\n            ",
        4 => "\n                ",
        5 => "\n                    ",
        6 => "\n                        ",
        7 => "\n                            ",
        8 => "\n                                ",
        9 => "\n                                    ",
        10 => "\n                                        ",
        11 => "\n                                            ",
        12 => "\n                                                ",
        13 => "\n                                                    ",
        14 => "\n                                                        ",
        15 => "\n                                                            ",
        16 => "\n                                                                ",
        17 => "\n                                                                    ",
        18 => "\n                                                                        ",
        19 => "\n                                                                            ",
        _ => "\n                                                                                ",
    }
}

fn put(text: &mut Vec<u8>, byte: u8) -> Result<(), AllocError>
    ensures ok { OnOk result (text.new.items ≡ text.old.items ++ byte ∷ []) }
    ensures err { OnErr result (text.new.items ≡ text.old.items) }
{
    text.push(byte)?;
    Ok(())
}

/// Writes a space where the next bytes would go on the last token.
fn part(text: &mut Vec<u8>, next: &[u8]) -> Result<(), AllocError>
    ensures ok { OnOk result (text.new.items ≡ parted text.old.items next.now) }
    ensures err { OnErr result (text.new.items ≡ text.old.items) }
{
    if is_met(text.as_slice(), next) {
        text.push(b' ')?;
    }
    Ok(())
}

/// Whether the last byte and the first of the next ones may stand in one token.
fn is_met(text: &[u8], next: &[u8]) -> bool
    ensures { result ≡ may_merge text.now next.now }
{
    let Some(last) = text.last() else {
        return false;
    };
    let Some(first) = next.first() else {
        return false;
    };
    is_joined(*last, *first)
}

fn is_joined(a: u8, b: u8) -> bool
    ensures { result ≡ joins a b }
{
    is_word_byte(a) && is_word_byte(b) || is_double_sign(a, b)
}
