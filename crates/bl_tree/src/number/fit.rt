//! Exact results as numbers of their type.

ghost use Rattle.std.specs.Prelude.{◌≡◌, pos};
ghost use Rattle.bl_tree.specs.Numbers.{fitted};

use crate::scalar::Scalar;

/// The type's number for an exact result.
pub(super) fn signed(t: Scalar, exact: i128) -> Option<i128>
    ensures { result ≡ fitted t exact }
{
    match t {
        Scalar::Bits(width) => Some(exact.rem_euclid(width.count() as i128)),
        _ => if t.contains(exact) { Some(exact) } else { None },
    }
}

/// The same for a result that is not negative, and may be above what an `i128` holds.
pub(super) fn natural(t: Scalar, exact: u128) -> Option<i128>
    ensures { result ≡ fitted t (pos exact) }
{
    match t {
        Scalar::Bits(width) => Some((exact % width.count()) as i128),
        _ => if exact <= t.range().high as u128 {
            Some(exact as i128)
        } else {
            None
        },
    }
}
