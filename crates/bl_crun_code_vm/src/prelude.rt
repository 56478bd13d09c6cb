//! The functions of the prelude.

ghost use Rattle.std.specs.Prelude.{◌≡◌, ◌∷◌, [], ◌↔◌, pos, neg_ℤ, IsTrue, false, IfSome, Some};
ghost use Rattle.bl_tree.specs.Scalar.{InRange, in_range};
ghost use Rattle.bl_tree.specs.Numbers.{checked_of, checked_one_of, fitted, takes_two, takes_one};
ghost use Rattle.bl_ctext_semantics.specs.Builtin.{builtin_value, in_c, widest};
ghost use Rattle.bl_ctext_semantics_laws.specs.Flat.{prelude_value};

use crate::arithmetic::{self, below};
use crate::ranges::{holds, limit};
use bl_ctext::Builtin;
use bl_tree::{Scalar, Width};

/// What a function of the prelude gives for one number; `None`, a trap, also for a number outside of its parameter's
/// type and for an operator on a type that it doesn't take.
#[inline(always)]
pub fn of_one(builtin: Builtin, a: i128) -> Option<i128>
    ensures { result ≡ prelude_value builtin (a ∷ []) }
{
    match kept(builtin, a) {
        Some(n) => Some(n),
        None => any(builtin, a),
    }
}

/// A natural number that a cast keeps; `None` for anything else.
#[inline(always)]
fn kept(builtin: Builtin, a: i128) -> Option<i128>
    ensures { IfSome result (λ n. prelude_value builtin (a ∷ []) ≡ Some n) }
{
    match builtin {
        Builtin::Cast(signed, t) => cast_natural(signed, t, a),
        _ => None,
    }
}

#[inline(always)]
#[tactic(auto, using(crate::proofs::Operators::cast_keeps))]
fn cast_natural(signed: bool, t: Scalar, a: i128) -> Option<i128>
    ensures { IfSome result (λ n. prelude_value (Builtin.Cast signed t) (a ∷ []) ≡ Some n) }
{
    match below(limit(t), a) {
        None => None,
        Some(n) => Some(i128::from(n)),
    }
}

/// What a function of the prelude gives for any number.
#[cold]
#[inline(never)]
fn any(builtin: Builtin, a: i128) -> Option<i128>
    ensures { result ≡ prelude_value builtin (a ∷ []) }
{
    match builtin {
        Builtin::One(op, t) => arithmetic::one(op, t, a),
        Builtin::Cast(signed, t) => cast(signed, t, a),
        Builtin::Turn => turn(a),
        Builtin::Two(..) | Builtin::Index(_) | Builtin::Stop => None,
    }
}

/// What a function of the prelude with two parameters gives for two numbers; none where it traps.
#[inline(always)]
pub fn of_two(builtin: Builtin, a: i128, b: i128) -> Option<i128>
    ensures { result ≡ prelude_value builtin (a ∷ b ∷ []) }
{
    match builtin {
        Builtin::Two(op, t) => arithmetic::two(op, t, a, b),
        Builtin::Index(signed) => index(signed, a, b),
        Builtin::One(..) | Builtin::Cast(..) | Builtin::Turn | Builtin::Stop => None,
    }
}

fn widest(signed: bool) -> Scalar
    ensures { result ≡ widest signed }
{
    if signed {
        Scalar::Int(Width::W64)
    } else {
        Scalar::Nat(Width::W64)
    }
}

fn cast(signed: bool, t: Scalar, a: i128) -> Option<i128>
    ensures { result ≡ prelude_value (Builtin.Cast signed t) (a ∷ []) }
{
    if holds(widest(signed), a) && holds(t, a) {
        Some(a)
    } else {
        None
    }
}

fn index(signed: bool, i: i128, length: i128) -> Option<i128>
    ensures { result ≡ prelude_value (Builtin.Index signed) (i ∷ length ∷ []) }
{
    if holds(widest(signed), i) && holds(Scalar::Nat(Width::W32), length) && 0 <= i && i < length {
        Some(i)
    } else {
        None
    }
}

fn turn(t: i128) -> Option<i128>
    ensures { result ≡ prelude_value Builtin.Turn (t ∷ []) }
{
    if !holds(Scalar::Nat(Width::W32), t) || t == 65_536 {
        None
    } else {
        Some((t + 1).rem_euclid(0x1_0000_0000))
    }
}
