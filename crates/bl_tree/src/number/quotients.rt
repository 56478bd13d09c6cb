//! Quotients and remainders.

ghost use Rattle.std.specs.Prelude.{◌≡◌, int_div, int_rem};
ghost use Rattle.bl_tree.specs.Scalar.{InRange};
ghost use Rattle.bl_tree.specs.Numbers.{fitted, divided_by};

use super::fit;
use crate::scalar::Scalar;

pub(super) fn quotient(t: Scalar, a: i128, b: i128) -> Option<i128>
    requires left { InRange t a }
    requires right { InRange t b }
    ensures { result ≡ divided_by b (fitted t (int_div a b)) }
{
    if b == 0 {
        return None;
    }
    fit::signed(t, a / b)
}

pub(super) fn remainder(t: Scalar, a: i128, b: i128) -> Option<i128>
    requires left { InRange t a }
    requires right { InRange t b }
    ensures { result ≡ divided_by b (fitted t (int_rem a b)) }
{
    if b == 0 {
        return None;
    }
    fit::signed(t, a % b)
}
