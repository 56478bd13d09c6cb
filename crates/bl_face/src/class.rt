//! What the language of faces tells tokens apart by.

ghost use Rattle.std.specs.Prelude.{◌≡◌};
ghost use Rattle.bl_face.specs.Lexemes.{class_of, class_of_word, scalar_of_word, bits_of_word, class_of_sign};

use bl_lex::sign;
use bl_tree::token::{Keyword, TokenKind};
use bl_tree::tree::UnitKind;
use bl_tree::{Scalar, Width};

/// A name, or a token whose text says nothing more.
#[derive(Clone, Copy)]
pub enum Class {
    Name,
    Mark(Mark),
}

/// A token that is no name. The last is one that no face has.
#[derive(Clone, Copy)]
pub enum Mark {
    Number(u128),
    Scalar(Scalar),
    Unit(UnitKind),
    Truth(bool),
    Struct,
    Const,
    Var,
    End,
    Returns,
    Colon,
    Comma,
    Assign,
    Minus,
    OpenParen,
    CloseParen,
    OpenBracket,
    CloseBracket,
    Other,
}

/// The class of a token of this kind.
pub fn class_of(kind: TokenKind) -> Class
    ensures { result ≡ class_of kind }
{
    match kind {
        TokenKind::Name => Class::Name,
        TokenKind::Number(n) => Class::Mark(Mark::Number(n)),
        TokenKind::Word(k) => Class::Mark(class_of_word(k)),
        TokenKind::Sign(k) => Class::Mark(class_of_sign(k)),
    }
}

fn class_of_word(k: Keyword) -> Mark
    ensures { result ≡ class_of_word k }
{
    if k == Keyword::Struct {
        Mark::Struct
    } else if k == Keyword::Const {
        Mark::Const
    } else if k == Keyword::Function {
        Mark::Unit(UnitKind::Function)
    } else if k == Keyword::Activity {
        Mark::Unit(UnitKind::Activity)
    } else if k == Keyword::Var {
        Mark::Var
    } else if k == Keyword::End {
        Mark::End
    } else if k == Keyword::Returns {
        Mark::Returns
    } else if k == Keyword::True {
        Mark::Truth(true)
    } else if k == Keyword::False {
        Mark::Truth(false)
    } else {
        scalar_of_word(k)
    }
}

fn scalar_of_word(k: Keyword) -> Mark
    ensures { result ≡ scalar_of_word k }
{
    if k == Keyword::Bool {
        Mark::Scalar(Scalar::Bool)
    } else if k == Keyword::Int8 {
        Mark::Scalar(Scalar::Int(Width::W8))
    } else if k == Keyword::Int16 {
        Mark::Scalar(Scalar::Int(Width::W16))
    } else if k == Keyword::Int32 {
        Mark::Scalar(Scalar::Int(Width::W32))
    } else if k == Keyword::Int64 {
        Mark::Scalar(Scalar::Int(Width::W64))
    } else if k == Keyword::Nat8 {
        Mark::Scalar(Scalar::Nat(Width::W8))
    } else if k == Keyword::Nat16 {
        Mark::Scalar(Scalar::Nat(Width::W16))
    } else if k == Keyword::Nat32 {
        Mark::Scalar(Scalar::Nat(Width::W32))
    } else if k == Keyword::Nat64 {
        Mark::Scalar(Scalar::Nat(Width::W64))
    } else {
        bits_of_word(k)
    }
}

fn bits_of_word(k: Keyword) -> Mark
    ensures { result ≡ bits_of_word k }
{
    if k == Keyword::Bits8 {
        Mark::Scalar(Scalar::Bits(Width::W8))
    } else if k == Keyword::Bits16 {
        Mark::Scalar(Scalar::Bits(Width::W16))
    } else if k == Keyword::Bits32 {
        Mark::Scalar(Scalar::Bits(Width::W32))
    } else if k == Keyword::Bits64 {
        Mark::Scalar(Scalar::Bits(Width::W64))
    } else {
        Mark::Other
    }
}

fn class_of_sign(k: u8) -> Mark
    ensures { result ≡ class_of_sign k }
{
    if k == sign::COLON {
        Mark::Colon
    } else if k == sign::COMMA {
        Mark::Comma
    } else if k == sign::ASSIGN {
        Mark::Assign
    } else if k == sign::MINUS {
        Mark::Minus
    } else if k == sign::OPEN_PAREN {
        Mark::OpenParen
    } else if k == sign::CLOSE_PAREN {
        Mark::CloseParen
    } else if k == sign::OPEN_BRACKET {
        Mark::OpenBracket
    } else if k == sign::CLOSE_BRACKET {
        Mark::CloseBracket
    } else {
        Mark::Other
    }
}
