//! The operators of the prelude for natural numbers that 64 bits hold.

ghost use Rattle.std.specs.Prelude.{◌≡◌, ◌<◌, ◌≤◌, ◌^◌, ◌∷◌, [], pos, Some, IfSome};
ghost use Rattle.bl_tree.specs.Numbers.{shifted_left, shifted_right};
ghost use Rattle.bl_tree.specs.Scalar.{bits_of};
ghost use Rattle.bl_tree.specs.declared.scalar.Scalar.TheVariants.{Bits};
ghost use Rattle.bl_ctext_semantics_laws.specs.Flat.{prelude_value};
ghost use Rattle.bl_crun_code_vm.specs.inner.Ranges.{limit_of};

use bl_ctext::Builtin;
use bl_tree::{Op, Scalar, Width};

/// What an operator gives for two numbers below a limit, where the type has every natural number below it; `None` where it
/// may give something else.
#[inline(always)]
pub fn two(op: Op, t: Scalar, limit: u64, a: u64, b: u64) -> Option<i128>
    requires limit { limit ≡ limit_of t }
    requires few { limit ≤ 2 ^ 63 }
    requires left { a < limit }
    requires right { b < limit }
    ensures { IfSome result (λ n. prelude_value (Builtin.Two op t) (pos a ∷ pos b ∷ []) ≡ Some n) }
{
    match op {
        Op::Add => sum(t, limit, a, b),
        Op::Sub => difference(t, limit, a, b),
        Op::Mul => product(t, limit, a, b),
        Op::Div => quotient(t, limit, a, b),
        Op::Rem => remainder(t, limit, a, b),
        _ => match t {
            Scalar::Bits(width) => of_bits(op, width, limit, a, b),
            _ => None,
        },
    }
}

#[inline(always)]
#[tactic(auto, using(crate::proofs::Operators::sum_stays))]
fn sum(t: Scalar, limit: u64, a: u64, b: u64) -> Option<i128>
    requires limit { limit ≡ limit_of t }
    requires few { limit ≤ 2 ^ 63 }
    requires left { a < limit }
    requires right { b < limit }
    ensures { IfSome result (λ n. prelude_value (Builtin.Two Op.Add t) (pos a ∷ pos b ∷ []) ≡ Some n) }
{
    let n = a + b;
    if n < limit { Some(i128::from(n)) } else { None }
}

#[inline(always)]
#[tactic(auto, using(crate::proofs::Operators::difference_stays))]
fn difference(t: Scalar, limit: u64, a: u64, b: u64) -> Option<i128>
    requires limit { limit ≡ limit_of t }
    requires left { a < limit }
    requires right { b < limit }
    ensures { IfSome result (λ n. prelude_value (Builtin.Two Op.Sub t) (pos a ∷ pos b ∷ []) ≡ Some n) }
{
    if b <= a {
        Some(i128::from(a - b))
    } else {
        None
    }
}

#[inline(always)]
#[tactic(auto, using(crate::proofs::Operators::product_stays))]
fn product(t: Scalar, limit: u64, a: u64, b: u64) -> Option<i128>
    requires limit { limit ≡ limit_of t }
    requires left { a < limit }
    requires right { b < limit }
    ensures { IfSome result (λ n. prelude_value (Builtin.Two Op.Mul t) (pos a ∷ pos b ∷ []) ≡ Some n) }
{
    match a.checked_mul(b) {
        None => None,
        Some(n) => { if n < limit { Some(i128::from(n)) } else { None } }
    }
}

#[inline(always)]
#[tactic(auto, using(crate::proofs::Operators::quotient_stays))]
fn quotient(t: Scalar, limit: u64, a: u64, b: u64) -> Option<i128>
    requires limit { limit ≡ limit_of t }
    requires left { a < limit }
    requires right { b < limit }
    ensures { IfSome result (λ n. prelude_value (Builtin.Two Op.Div t) (pos a ∷ pos b ∷ []) ≡ Some n) }
{
    if b == 0 {
        None
    } else {
        Some(i128::from(a / b))
    }
}

#[inline(always)]
#[tactic(auto, using(crate::proofs::Operators::remainder_stays))]
fn remainder(t: Scalar, limit: u64, a: u64, b: u64) -> Option<i128>
    requires limit { limit ≡ limit_of t }
    requires left { a < limit }
    requires right { b < limit }
    ensures { IfSome result (λ n. prelude_value (Builtin.Two Op.Rem t) (pos a ∷ pos b ∷ []) ≡ Some n) }
{
    if b == 0 {
        None
    } else {
        Some(i128::from(a % b))
    }
}

/// What an operator on binary digits gives.
#[inline(always)]
#[tactic(auto, using(crate::proofs::Operators::both_are, crate::proofs::Operators::either_is, crate::proofs::Operators::one_is, crate::proofs::Operators::left_is, crate::proofs::Operators::right_is))]
fn of_bits(op: Op, width: Width, limit: u64, a: u64, b: u64) -> Option<i128>
    requires limit { limit ≡ limit_of (Bits width) }
    requires left { a < limit }
    requires right { b < limit }
    ensures { IfSome result (λ n. prelude_value (Builtin.Two op (Bits width)) (pos a ∷ pos b ∷ []) ≡ Some n) }
{
    match op {
        Op::BitAnd => Some(i128::from(a & b)),
        Op::BitOr => Some(i128::from(a | b)),
        Op::BitXor => Some(i128::from(a ^ b)),
        Op::Shl => Some(shifted_left(width, a, b)),
        Op::Shr => Some(shifted_right(width, a, b)),
        _ => None,
    }
}

#[inline(always)]
fn shifted_left(width: Width, a: u64, b: u64) -> i128
    ensures { result ≡ pos (shifted_left (bits_of width) a b) }
{
    let bits = width.bits();
    if b < u64::from(bits) {
        ((u128::from(a) << b as u32) % (1 << bits)) as i128
    } else {
        0
    }
}

#[inline(always)]
fn shifted_right(width: Width, a: u64, b: u64) -> i128
    ensures { result ≡ pos (shifted_right (bits_of width) a b) }
{
    if b < u64::from(width.bits()) {
        i128::from(a >> b as u32)
    } else {
        0
    }
}
