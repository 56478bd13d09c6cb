//! Operators at numbers with their types.

ghost use Rattle.std.specs.Prelude.{◌≡◌, ◌↔◌, IsTrue, option_and_then};
ghost use Rattle.bl_tree.specs.Scalar.{InRange, in_range};
ghost use Rattle.bl_tree.specs.Types.{scalar_in};
ghost use Rattle.bl_eval.specs.Meaning.{applied_two, cast_datum, datum_of, decides, one_datum, operand_in, plain, two_data};

use crate::datum::{Datum, Operand};
use bl_tree::tree::Ty;
use bl_tree::{Op, Scalar, Value, checked, checked_one};

pub fn operand(datum: Option<Datum>) -> Option<Operand>
    ensures { result ≡ option_and_then operand_in datum }
{
    match datum {
        Some(Datum::Scalar(ty, n)) => Some(Operand { ty, n }),
        _ => None,
    }
}

pub fn plain_value(datum: Datum) -> Value
    ensures { result ≡ plain datum }
{
    match datum {
        Datum::Scalar(_, n) => Value::Number(n),
        Datum::Whole(value) => value,
    }
}

/// A value, which is one of the type where that has no parts.
pub fn datum(ty: Option<Scalar>, value: Value) -> Datum
    ensures { result ≡ datum_of ty value }
{
    match ty {
        Some(ty) => match value {
            Value::Number(n) => Datum::Scalar(ty, n),
            Value::Parts(_) => Datum::Whole(value),
        },
        None => Datum::Whole(value),
    }
}

pub fn scalar_in(ty: &Ty) -> Option<Scalar>
    ensures { result ≡ scalar_in ty.now }
{
    match ty {
        Ty::Scalar(s) => Some(*s),
        _ => None,
    }
}

pub fn one(op: Op, a: Option<Operand>) -> Option<Datum>
    ensures { result ≡ option_and_then (one_datum op) a }
{
    let a = a?;
    if op.takes_one(a.ty) && a.ty.contains(a.n) {
        let n = checked_one(op, a.ty, a.n)?;
        Some(Datum::Scalar(op.type_of_result(a.ty), n))
    } else {
        None
    }
}

/// Whether the left operand alone decides.
pub fn decides(op: Op, a: Operand) -> bool
    ensures { result ≡ decides op a.n }
{
    match op {
        Op::And => a.n != 1,
        Op::Or => a.n == 1,
        _ => false,
    }
}

pub fn two(op: Op, a: Operand, b: Option<Operand>) -> Option<Datum>
    ensures { result ≡ option_and_then (two_data op a) b }
{
    let b = b?;
    let n = applied(op, a, b.n)?;
    Some(Datum::Scalar(op.type_of_result(a.ty), n))
}

fn applied(op: Op, a: Operand, n: i128) -> Option<i128>
    ensures { result ≡ applied_two op a n }
{
    if !op.takes_two(a.ty) {
        return None;
    }
    if !is_in(a.ty, a.n) {
        return None;
    }
    if !is_in(a.ty, n) {
        return None;
    }
    checked(op, a.ty, a.n, n)
}

#[tactic(auto, using(bl_tree::proofs::NumberLemmas::in_range_passes, bl_tree::proofs::NumberLemmas::in_range_holds))]
fn is_in(ty: Scalar, n: i128) -> bool
    ensures test { result ≡ in_range ty n }
    ensures fact { IsTrue result ↔ InRange ty n }
{
    ty.contains(n)
}

pub fn cast(target: Scalar, a: Option<Operand>) -> Option<Datum>
    ensures { result ≡ option_and_then (cast_datum target) a }
{
    let a = a?;
    if target.contains(a.n) {
        Some(Datum::Scalar(target, a.n))
    } else {
        None
    }
}
