//! Laws of the arithmetic. Each is proved as the contract of a function that does nothing.

ghost use Rattle.std.specs.Prelude.{◌≡◌, IsFalse, IsSomeAnd, Some, None};
ghost use Rattle.bl_tree.specs.Scalar.{InRange, is_bits};
ghost use Rattle.bl_tree.specs.Numbers.{fitted, WrapsTo};

use crate::scalar::{Scalar, Width};

/// A result that its type has stays as it is.
pub fn fits_as_it_is(t: Scalar, exact: i128)
    requires { InRange t exact }
    ensures { fitted t exact ≡ Some exact }
{}

/// Int and nat trap for every result that their type doesn't have.
pub fn traps_outside(t: Scalar, exact: i128)
    requires checked { IsFalse (is_bits t) }
    requires outside { ¬ InRange t exact }
    ensures { fitted t exact ≡ None }
{}

/// Bits have for every result a number of their type that differs from it by a multiple of two to the width.
pub fn wraps_by_the_width(width: Width, exact: i128)
    ensures { IsSomeAnd (fitted (Scalar.Bits width) exact) (WrapsTo width exact) }
{}
