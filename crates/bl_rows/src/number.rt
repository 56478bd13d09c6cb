//! Numbers and values as fields write them.

ghost use Rattle.std.specs.Prelude.{◌≡◌, ◌≤◌, ◌^◌, IfSome, None, Some, unsigned_abs, true, false};
ghost use Rattle.bl_rows.specs.Fields.{number_of, number_of_digits, value_of, is_this_number, truth_of, within};

use bl_tree::Scalar;

/// The most digits that a number may have.
pub const MOST_DIGITS: usize = 39;

// The number that 1 to 39 decimal digits write, where it is below 2 to the 64, as that of every type is.
fn digits(text: &[u8]) -> Option<u64>
    ensures found { IfSome result (λ n. number_of_digits text.now ≡ Some n) }
    ensures beyond { result ≡ None → IfSome (number_of_digits text.now) (λ n. 2 ^ 64 ≤ n) }
{
    if text.is_empty() || text.len() > MOST_DIGITS {
        return None;
    }
    let mut n: u64 = 0;
    'digits: for digit in text {
        if !digit.is_ascii_digit() {
            return None;
        }
        n = n.checked_mul(10)?.checked_add((*digit - b'0') as u64)?;
    }
    Some(n)
}

/// The number that a field writes, where it is less than 2 to the 64 away from 0.
pub fn number(field: &[u8]) -> Option<i128>
    ensures found { IfSome result (λ z. number_of field.now ≡ Some z) }
    ensures beyond { result ≡ None → IfSome (number_of field.now) (λ z. 2 ^ 64 ≤ unsigned_abs z) }
{
    if field.first() == Some(&b'-') {
        let n = digits(&field[1..])?;
        return Some(-(n as i128));
    }
    Some(digits(field)? as i128)
}

/// The number that a field gives an input of this type.
pub fn value(ty: Scalar, field: &[u8]) -> Option<i128>
    ensures { result ≡ value_of ty field.now }
{
    match ty {
        Scalar::Bool => truth(field),
        Scalar::Int(_) | Scalar::Nat(_) | Scalar::Bits(_) => number_within(ty, field),
    }
}

#[tactic(auto, using(crate::proofs::Numbers::beyond_none))]
fn number_within(ty: Scalar, field: &[u8]) -> Option<i128>
    ensures { result ≡ within ty (number_of field.now) }
{
    let n = number(field)?;
    if ty.contains(n) { Some(n) } else { None }
}

fn truth(field: &[u8]) -> Option<i128>
    ensures { result ≡ truth_of field.now }
{
    match field {
        b"true" => Some(1),
        b"false" => Some(0),
        _ => None,
    }
}

/// Whether a field is the number of this tick.
pub fn is_tick(tick: u32, field: &[u8]) -> bool
    ensures { result ≡ is_this_number tick (number_of field.now) }
{
    match number(field) {
        Some(n) => n == tick as i128,
        None => false,
    }
}
