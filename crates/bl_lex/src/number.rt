//! Words that begin with a digit.

ghost use Rattle.std.specs.Prelude.{◌≡◌, ◌^◌, ◌≤◌, ◌∷◌, min, MatchOption};
ghost use Rattle.bl_lex.specs.Spelling.{IsDigits, digits_value};
ghost use Rattle.bl_lex.specs.inner.Steps.{IsNumeral, IsNoNumeral};

/// What a greater number is kept as: no type's range has it.
pub const GREATEST_KEPT: u128 = 1 << 64;

/// A word that begins with a digit.
#[derive(Clone, Copy, PartialEq, Eq, Debug)]
pub enum Numeral {
    /// Decimal digits alone, with their value.
    Decimal(u128),
    /// Digits after `0x` or `0b`, with their value.
    Prefixed(u128),
    /// Digits after `0o`, which the profile leaves out.
    Octal,
}

/// What a word is that begins with a digit. None where it is no numeral.
pub fn numeral_of(word: &[u8]) -> Option<Numeral>
    ensures { MatchOption result (IsNoNumeral word.now) (IsNumeral word.now) }
{
    if let Some(value) = value_of(word, 10) {
        return Some(Numeral::Decimal(value));
    }
    if word.len() < 2 || word[0] != b'0' {
        return None;
    }
    marked(word[1], &word[2..])
}

/// What `0`, the letter of a base and these digits are.
fn marked(mark: u8, digits: &[u8]) -> Option<Numeral>
    requires not_decimal { ¬ IsDigits 10 (48 ∷ mark ∷ digits.now) }
    ensures { MatchOption result (IsNoNumeral (48 ∷ mark ∷ digits.now)) (IsNumeral (48 ∷ mark ∷ digits.now)) }
{
    match mark {
        b'x' => Some(Numeral::Prefixed(value_of(digits, 16)?)),
        b'b' => Some(Numeral::Prefixed(value_of(digits, 2)?)),
        b'o' => {
            value_of(digits, 8)?;
            Some(Numeral::Octal)
        }
        _ => None,
    }
}

/// The kept value of digits in a base. None where there is no digit, or a byte is none.
fn value_of(digits: &[u8], base: u8) -> Option<u128>
    requires low { 2 ≤ base }
    requires high { base ≤ 36 }
    ensures { MatchOption result (¬ IsDigits base digits.now) (λ kept. IsDigits base digits.now × (kept ≡ min (digits_value base digits.now) (2 ^ 64))) }
{
    if digits.is_empty() {
        return None;
    }
    let mut value: u128 = 0;
    for byte in digits {
        let digit = (*byte as char).to_digit(base as u32)?;
        value = (value * base as u128 + digit as u128).min(GREATEST_KEPT);
    }
    Some(value)
}
