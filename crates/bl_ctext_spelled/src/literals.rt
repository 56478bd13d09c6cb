//! Which literals and lengths of arrays have a spelling.

ghost use Rattle.std.specs.Prelude.{◌≡◌, pos, true};
ghost use Rattle.bl_ctext.specs.Spellable.{is_length as length_spells, is_literal as literal_spells};
ghost use Rattle.bl_ctext.specs.Spelling.{negatives as negatives_of};

use bl_tree::scalar::{Scalar, Width};

/// How many negative numbers a signed type of this width has.
fn negatives(width: Width) -> i128
    ensures { result ≡ pos (negatives_of width) }
{
    match width {
        Width::W8 => 0x80,
        Width::W16 => 0x8000,
        Width::W32 => 0x8000_0000,
        Width::W64 => 0x8000_0000_0000_0000,
    }
}

/// Whether a number is in the range of a type, and C has the type.
pub fn is_literal(ty: Scalar, n: i128) -> bool
    ensures { result ≡ true → literal_spells ty n ≡ true }
{
    match ty {
        Scalar::Bool => 0 <= n && n < 2,
        Scalar::Int(width) => -negatives(width) <= n && n < negatives(width),
        Scalar::Nat(width) => 0 <= n && n < 2 * negatives(width),
        Scalar::Bits(_) => false,
    }
}

/// Whether an array may have this many elements.
pub fn is_length(length: u32) -> bool
    ensures { result ≡ length_spells length }
{
    1 <= length && length <= 65_536
}
