//! Sums, differences and products.

ghost use Rattle.std.specs.Prelude.{◌≡◌, ◌+ℤ◌, ◌-ℤ◌, ◌*ℤ◌, neg_ℤ};
ghost use Rattle.bl_tree.specs.Scalar.{InRange};
ghost use Rattle.bl_tree.specs.Numbers.{fitted};

use super::fit;
use crate::scalar::Scalar;

pub(super) fn sum(t: Scalar, a: i128, b: i128) -> Option<i128>
    requires left { InRange t a }
    requires right { InRange t b }
    ensures { result ≡ fitted t (a +ℤ b) }
{
    fit::signed(t, a + b)
}

pub(super) fn difference(t: Scalar, a: i128, b: i128) -> Option<i128>
    requires left { InRange t a }
    requires right { InRange t b }
    ensures { result ≡ fitted t (a -ℤ b) }
{
    fit::signed(t, a - b)
}

// The product of two numbers below 2 to the 64 may be above what an `i128` holds.
pub(super) fn product(t: Scalar, a: i128, b: i128) -> Option<i128>
    requires left { InRange t a }
    requires right { InRange t b }
    ensures { result ≡ fitted t (a *ℤ b) }
{
    match t {
        Scalar::Int(_) => fit::signed(t, a * b),
        _ => fit::natural(t, a as u128 * b as u128),
    }
}

pub(super) fn negation(t: Scalar, a: i128) -> Option<i128>
    requires { InRange t a }
    ensures { result ≡ fitted t (neg_ℤ a) }
{
    fit::signed(t, -a)
}
