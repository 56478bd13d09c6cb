//! Types without parts, by their words.

ghost use Rattle.std.specs.Prelude.{◌≡◌, false, IfSome, IsNone};
ghost use Rattle.bl_parse_syntax.specs.Grammar.{class_of};
ghost use Rattle.bl_parse_syntax.specs.Tables.{has};
ghost use Rattle.bl_parse.specs.Operators.{IsScalar, scalar_classes};

use bl_tree::scalar::{Scalar, Width};
use bl_tree::token::{Keyword, TokenKind};

/// The type without parts that the token names.
pub fn scalar(kind: TokenKind) -> Option<Scalar>
    ensures is { IfSome result (IsScalar kind) }
    ensures none { IsNone result → has (scalar_classes) (class_of kind) ≡ false }
{
    match kind {
        TokenKind::Word(word) => scalar_of_word(word),
        TokenKind::Name | TokenKind::Number(_) | TokenKind::Sign(_) => None,
    }
}

fn scalar_of_word(word: Keyword) -> Option<Scalar>
    ensures is { IfSome result (IsScalar (TokenKind.Word word)) }
    ensures none { IsNone result → has (scalar_classes) (class_of (TokenKind.Word word)) ≡ false }
{
    match word {
        Keyword::Bool => Some(Scalar::Bool),
        Keyword::Int8 => Some(Scalar::Int(Width::W8)),
        Keyword::Int16 => Some(Scalar::Int(Width::W16)),
        Keyword::Int32 => Some(Scalar::Int(Width::W32)),
        Keyword::Int64 => Some(Scalar::Int(Width::W64)),
        Keyword::Nat8 => Some(Scalar::Nat(Width::W8)),
        Keyword::Nat16 => Some(Scalar::Nat(Width::W16)),
        Keyword::Nat32 => Some(Scalar::Nat(Width::W32)),
        Keyword::Nat64 => Some(Scalar::Nat(Width::W64)),
        Keyword::Bits8 => Some(Scalar::Bits(Width::W8)),
        Keyword::Bits16 => Some(Scalar::Bits(Width::W16)),
        Keyword::Bits32 => Some(Scalar::Bits(Width::W32)),
        Keyword::Bits64 => Some(Scalar::Bits(Width::W64)),
        _ => None,
    }
}
