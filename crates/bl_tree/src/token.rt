//! Tokens of a source text.

use crate::place::Place;

/// A piece of a source text that means something (docs/LANGUAGE.md, "Tokens").
#[derive(Clone, Copy, PartialEq, Eq, Debug)]
pub struct Token {
    pub kind: TokenKind,
    pub place: Place,
    /// The number of line feeds before it.
    pub line: u32,
}

#[derive(Clone, Copy, PartialEq, Eq, Debug)]
pub enum TokenKind {
    /// Its text is read at its place.
    Name,
    /// The value, where a greater one than 2^64 is kept as 2^64.
    Number(u128),
    Word(Keyword),
    /// The position in the list of signs (docs/LANGUAGE.md, "Tokens"), from 0.
    Sign(u8),
}

/// The keywords, in the order of their list (docs/LANGUAGE.md, "Tokens").
#[derive(Clone, Copy, PartialEq, Eq, Debug)]
pub enum Keyword {
    Function,
    Activity,
    Returns,
    Return,
    Struct,
    Var,
    Let,
    Const,
    If,
    Then,
    Elseif,
    Else,
    End,
    Await,
    Run,
    Cobegin,
    Weak,
    With,
    When,
    Abort,
    Reset,
    Repeat,
    Until,
    While,
    Prev,
    As,
    Not,
    And,
    Or,
    True,
    False,
    Bool,
    Int8,
    Int16,
    Int32,
    Int64,
    Nat8,
    Nat16,
    Nat32,
    Nat64,
    Bits8,
    Bits16,
    Bits32,
    Bits64,
}
