//! The operators of the prelude.

ghost use Rattle.std.specs.Prelude.{◌≡◌, ◌<◌, ◌∷◌, [], pos, Some, IfSome};
ghost use Rattle.bl_ctext_semantics_laws.specs.Flat.{prelude_value};

use crate::naturals;
use crate::ranges::{holds_in_c, limit};
use bl_ctext::Builtin;
use bl_tree::{Op, Scalar, checked, checked_one};

/// What an operator gives for two numbers.
#[inline(always)]
pub fn two(op: Op, t: Scalar, a: i128, b: i128) -> Option<i128>
    ensures { result ≡ prelude_value (Builtin.Two op t) (a ∷ b ∷ []) }
{
    match natural(op, t, a, b) {
        Some(n) => Some(n),
        None => any(op, t, a, b),
    }
}

/// What an operator gives for one number.
pub fn one(op: Op, t: Scalar, a: i128) -> Option<i128>
    ensures { result ≡ prelude_value (Builtin.One op t) (a ∷ []) }
{
    if op.takes_one(t) && holds_in_c(t, a) {
        checked_one(op, t, a)
    } else {
        None
    }
}

/// What an operator gives for any two numbers.
#[cold]
#[inline(never)]
fn any(op: Op, t: Scalar, a: i128, b: i128) -> Option<i128>
    ensures { result ≡ prelude_value (Builtin.Two op t) (a ∷ b ∷ []) }
{
    if op.takes_two(t) && holds_in_c(t, a) && holds_in_c(t, b) {
        checked(op, t, a, b)
    } else {
        None
    }
}

/// What an operator gives for natural numbers that 64 bits hold; `None` also where it may give something else.
#[inline(always)]
fn natural(op: Op, t: Scalar, a: i128, b: i128) -> Option<i128>
    ensures { IfSome result (λ n. prelude_value (Builtin.Two op t) (a ∷ b ∷ []) ≡ Some n) }
{
    let limit = limit(t);
    match below(limit, a) {
        None => None,
        Some(left) => match below(limit, b) {
            None => None,
            Some(right) => naturals::two(op, t, limit, left, right),
        },
    }
}

/// The number, if it isn't negative and is below a limit.
#[inline(always)]
pub fn below(limit: u64, n: i128) -> Option<u64>
    ensures { IfSome result (λ k. (n ≡ pos k) × (k < limit)) }
{
    if 0 <= n && n < i128::from(limit) {
        Some(n as u64)
    } else {
        None
    }
}
