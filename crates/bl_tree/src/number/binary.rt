//! Operators on binary digits.

ghost use Rattle.std.specs.Prelude.{◌≡◌, ◌-◌, ◌^◌, ◌-ℤ◌, pos, IsTrue, unsigned_abs, bit_and, bit_or, bit_xor};
ghost use Rattle.bl_tree.specs.Scalar.{InRange, is_bits, width_of};
ghost use Rattle.bl_tree.specs.Numbers.{shifted_left, shifted_right};

use crate::scalar::Scalar;

pub(super) fn both(t: Scalar, a: i128, b: i128) -> i128
    requires bits { IsTrue (is_bits t) }
    requires left { InRange t a }
    requires right { InRange t b }
    ensures { result ≡ pos (bit_and (unsigned_abs a) (unsigned_abs b)) }
{
    a & b
}

pub(super) fn either(t: Scalar, a: i128, b: i128) -> i128
    requires bits { IsTrue (is_bits t) }
    requires left { InRange t a }
    requires right { InRange t b }
    ensures { result ≡ pos (bit_or (unsigned_abs a) (unsigned_abs b)) }
{
    a | b
}

pub(super) fn one_alone(t: Scalar, a: i128, b: i128) -> i128
    requires bits { IsTrue (is_bits t) }
    requires left { InRange t a }
    requires right { InRange t b }
    ensures { result ≡ pos (bit_xor (unsigned_abs a) (unsigned_abs b)) }
{
    a ^ b
}

pub(super) fn complement(t: Scalar, a: i128) -> i128
    requires bits { IsTrue (is_bits t) }
    requires operand { InRange t a }
    ensures { result ≡ pos (2 ^ width_of t - 1) -ℤ a }
{
    t.range().high - a
}

pub(super) fn shifted_left(t: Scalar, a: i128, b: i128) -> i128
    requires bits { IsTrue (is_bits t) }
    requires left { InRange t a }
    requires right { InRange t b }
    ensures { result ≡ pos (shifted_left (width_of t) (unsigned_abs a) (unsigned_abs b)) }
{
    let width = t.bits();
    if b < width as i128 {
        (((a as u128) << b as u32) % (1 << width)) as i128
    } else {
        0
    }
}

pub(super) fn shifted_right(t: Scalar, a: i128, b: i128) -> i128
    requires bits { IsTrue (is_bits t) }
    requires left { InRange t a }
    requires right { InRange t b }
    ensures { result ≡ pos (shifted_right (width_of t) (unsigned_abs a) (unsigned_abs b)) }
{
    if b < t.bits() as i128 {
        a >> b as u32
    } else {
        0
    }
}
