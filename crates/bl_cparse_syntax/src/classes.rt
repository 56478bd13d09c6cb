//! Whether a piece is of a class.

ghost use Rattle.std.specs.Prelude.{◌≡◌, ◌+◌, ◌*◌, ◌≤◌, ◌^◌, ◌&&◌, map, true, nat_le, nat_lt, IfSome, IfNone};
ghost use Rattle.std.specs.Char.{is_ascii_digit, digit_value};
ghost use Rattle.std.specs.Str.Parse.{digits_value};
ghost use Rattle.bl_ctext.specs.Names.{is_among};
ghost use Rattle.bl_ctext.specs.Spelling.{negatives};
ghost use Rattle.bl_cparse_syntax.specs.Pieces.{is_same};
ghost use Rattle.bl_cparse_syntax.specs.Classes.{words_of, least, digits_bound, are_digits, spells_number, matches};
ghost use Rattle.bl_cparse_syntax.specs.inner.Stacks.{class_shown};

use crate::grammar::{Class, Digits, Group};
use crate::seen::Seen;
use crate::words;
use bl_tree::Width;

/// Whether the piece is of the class.
#[tactic(auto, unfolding(crate::specs::Classes::matches))]
pub fn is_of(class: Class<'_>, piece: &Seen<'_>) -> bool
    ensures { result ≡ matches (class_shown class.entry) piece.now }
{
    match class {
        Class::Exactly(word) => is_same(word.as_bytes(), piece.bytes()),
        Class::OneOf(group) => is_one_of(group, piece),
        Class::Name => piece.is_name(),
        Class::Number(digits) => is_number(digits, piece.bytes()),
        Class::Turn => words::is_turn_name(piece.bytes()),
        Class::Named(name) => is_same(name, piece.bytes()),
    }
}

fn is_one_of(group: Group, piece: &Seen<'_>) -> bool
    ensures { result ≡ is_among piece.now (words_of group) }
{
    match group {
        Group::PreludeFunctions => piece.is_prelude(),
        _ => words::is_among(piece.bytes(), words_of(group)),
    }
}

#[tactic(auto, unfolding(crate::specs::Pieces::is_same))]
fn is_same(one: &[u8], other: &[u8]) -> bool
    ensures { result ≡ is_same one.now other.now }
{
    one == other
}

/// The words and signs of a list.
fn words_of(group: Group) -> &'static [&'static str]
    ensures { map (λ known. known.now) result.now ≡ words_of group }
{
    match group {
        Group::ScalarTypes => &words::SCALAR_TYPES,
        Group::PlainLiterals => &words::PLAIN_LITERALS,
        Group::Operators => &words::OPERATORS,
        Group::IndexFunctions => &words::INDEX_FUNCTIONS,
        Group::StructWords => &words::STRUCT_WORDS,
        Group::FunctionWords => &words::FUNCTION_WORDS,
        Group::PreludeFunctions => &words::PRELUDE_FUNCTIONS,
    }
}

#[tactic(auto, unfolding(crate::specs::Classes::spells_number))]
fn is_number(digits: Digits, piece: &[u8]) -> bool
    ensures { result ≡ spells_number digits piece.now }
{
    are_digits(piece) && is_within(digits, piece)
}

/// One digit or more, and no zero before others.
fn are_digits(piece: &[u8]) -> bool
    ensures { result ≡ are_digits piece.now }
{
    match piece {
        [first, rest @ ..] => words::are_digits(piece) && (*first != b'0' || rest.is_empty()),
        [] => false,
    }
}

/// The number of the digits is one that they may spell.
fn is_within(digits: Digits, piece: &[u8]) -> bool
    requires { are_digits piece.now ≡ true }
    ensures { result ≡ nat_le (least digits) (digits_value 10 piece.now) && nat_lt (digits_value 10 piece.now) (digits_bound digits) }
{
    match value_of(piece) {
        Some(value) => least(digits) <= value && value <= greatest(digits),
        None => false,
    }
}

/// The number that the digits spell, where it is below 2^64.
fn value_of(piece: &[u8]) -> Option<u64>
    requires { are_digits piece.now ≡ true }
    ensures some { IfSome result (λ value. value ≡ digits_value 10 piece.now) }
    ensures none { IfNone result (2 ^ 64 ≤ digits_value 10 piece.now) }
{
    let mut value: u64 = 0;
    for digit in piece {
        match with_digit(value, *digit) {
            Some(more) => value = more,
            None => return None,
        }
    }
    Some(value)
}

/// The number with one digit more, where it is below 2^64.
fn with_digit(value: u64, digit: u8) -> Option<u64>
    requires { is_ascii_digit digit ≡ true }
    ensures some { IfSome result (λ more. more ≡ value * 10 + digit_value digit) }
    ensures none { IfNone result (2 ^ 64 ≤ value * 10 + digit_value digit) }
{
    let tens = value.checked_mul(10)?;
    tens.checked_add(u64::from(digit - b'0'))
}

fn least(digits: Digits) -> u64
    ensures { result ≡ least digits }
{
    match digits {
        Digits::Elements | Digits::Negated(_) => 1,
        Digits::Int(_) | Digits::Unsigned(_) => 0,
    }
}

fn greatest(digits: Digits) -> u64
    ensures { result + 1 ≡ digits_bound digits }
{
    match digits {
        Digits::Elements => 65_536,
        Digits::Int(width) | Digits::Negated(width) => greatest_int(width),
        Digits::Unsigned(width) => greatest_unsigned(width),
    }
}

/// The greatest number of the int type of this width.
fn greatest_int(width: Width) -> u64
    ensures { result + 1 ≡ negatives width }
{
    match width {
        Width::W8 => 0x7F,
        Width::W16 => 0x7FFF,
        Width::W32 => 0x7FFF_FFFF,
        Width::W64 => 0x7FFF_FFFF_FFFF_FFFF,
    }
}

/// The greatest number of the unsigned type of this width.
fn greatest_unsigned(width: Width) -> u64
    ensures { result + 1 ≡ 2 * negatives width }
{
    match width {
        Width::W8 => 0xFF,
        Width::W16 => 0xFFFF,
        Width::W32 => 0xFFFF_FFFF,
        Width::W64 => 0xFFFF_FFFF_FFFF_FFFF,
    }
}
