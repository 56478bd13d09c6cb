//! The numbers that constants stand for.

ghost use Rattle.std.specs.Prelude.{◌≡◌, ◌↔◌, IsTrue, option_and_then, option_map};
ghost use Rattle.bl_tree.specs.Scalar.{InRange, in_range};
ghost use Rattle.bl_eval.specs.Meaning.{applied_one, applied_two, cast_datum, decides, one_datum, operand_in, two_data, two_datum};
ghost use Rattle.bl_types.specs.Failures.{noted};
ghost use Rattle.bl_types.specs.Folded.{as_operand, constant_target_of, folded, is_constant, not_constant, number_in, number_or_zero};

use crate::failure::Notes;
use bl_names_tree::expr::{NamedExpr, NamedExprKind, NamedTarget, Root};
use bl_tree::tree::{Expr, ExprKind};
use bl_tree::{Op, Rule, Scalar, checked, checked_one};

/// A number and its type.
#[derive(Clone, Copy)]
pub struct Number {
    pub ty: Scalar,
    pub n: i128,
}

#[tactic(auto, using(bl_tree::proofs::NumberLemmas::in_range_passes, bl_tree::proofs::NumberLemmas::in_range_holds))]
fn is_in(ty: Scalar, n: i128) -> bool
    ensures test { result ≡ in_range ty n }
    ensures fact { IsTrue result ↔ InRange ty n }
{
    ty.contains(n)
}

fn applied_one(op: Op, a: Number) -> Option<i128>
    ensures { result ≡ applied_one op (as_operand a) }
{
    if !op.takes_one(a.ty) {
        return None;
    }
    if !is_in(a.ty, a.n) {
        return None;
    }
    checked_one(op, a.ty, a.n)
}

fn applied_two(op: Op, a: Number, n: i128) -> Option<i128>
    ensures { result ≡ applied_two op (as_operand a) n }
{
    if !op.takes_two(a.ty) {
        return None;
    }
    if !is_in(a.ty, a.n) {
        return None;
    }
    if !is_in(a.ty, n) {
        return None;
    }
    checked(op, a.ty, a.n, n)
}

fn one(op: Op, a: Option<Number>) -> Option<Number>
    ensures { option_map as_operand result ≡ option_and_then operand_in (option_and_then (one_datum op) (option_map as_operand a)) }
{
    match a {
        Some(a) => match applied_one(op, a) {
            Some(n) => Some(Number {
                ty: op.type_of_result(a.ty),
                n,
            }),
            None => None,
        },
        None => None,
    }
}

/// Whether the left operand alone decides.
fn decides(op: Op, n: i128) -> bool
    ensures { result ≡ decides op n }
{
    match op {
        Op::And => n != 1,
        Op::Or => n == 1,
        _ => false,
    }
}

fn two(op: Op, a: Option<Number>, b: Option<Number>) -> Option<Number>
    ensures { option_map as_operand result ≡ option_and_then operand_in (option_and_then (two_datum op (option_map as_operand b)) (option_map as_operand a)) }
{
    match a {
        Some(a) => {
            if decides(op, a.n) {
                Some(a)
            } else {
                both(op, a, b)
            }
        }
        None => None,
    }
}

fn both(op: Op, a: Number, b: Option<Number>) -> Option<Number>
    ensures { option_map as_operand result ≡ option_and_then operand_in (option_and_then (two_data op (as_operand a)) (option_map as_operand b)) }
{
    match b {
        Some(b) => match applied_two(op, a, b.n) {
            Some(n) => Some(Number {
                ty: op.type_of_result(a.ty),
                n,
            }),
            None => None,
        },
        None => None,
    }
}

fn cast(target: Scalar, a: Option<Number>) -> Option<Number>
    ensures { option_map as_operand result ≡ option_and_then operand_in (option_and_then (cast_datum target) (option_map as_operand a)) }
{
    match a {
        Some(a) => {
            if is_in(target, a.n) {
                Some(Number { ty: target, n: a.n })
            } else {
                None
            }
        }
        None => None,
    }
}

/// Whether a target is a constant and no part of one.
fn is_whole_constant(target: &NamedTarget) -> bool
    ensures { result ≡ constant_target_of target.now }
{
    match target.root {
        Root::Constant(_) => match target.parts.as_slice() {
            [] => true,
            [_, ..] => false,
        },
        Root::Variable(_) => false,
    }
}

/// Whether an expression is made of literals, constants, operators and casts alone.
fn is_constant(e: &NamedExpr) -> bool
    ensures { result ≡ is_constant e.now }
{
    match &e.what {
        NamedExprKind::Number(_, _) | NamedExprKind::Truth(_) => true,
        NamedExprKind::Read(target) => is_whole_constant(target),
        NamedExprKind::One(_, a) | NamedExprKind::Cast(_, a) => is_constant(a),
        NamedExprKind::Two(_, a, b) => is_constant(a) && is_constant(b),
        NamedExprKind::Prev(_) | NamedExprKind::Call(_, _, _) => false,
    }
}

/// What an expression gives where there are no variables and no functions; `None` where it traps.
fn number_in(e: &Expr) -> Option<Number>
    ensures { option_map as_operand result ≡ number_in e.now }
{
    match &e.what {
        ExprKind::Literal(n, s) => Some(Number { ty: *s, n: *n }),
        ExprKind::One(op, a) => one(*op, number_in(a)),
        ExprKind::Two(op, a, b) => two(*op, number_in(a), number_in(b)),
        ExprKind::Cast(target, a) => cast(*target, number_in(a)),
        ExprKind::Read(_) | ExprKind::Prev(_) | ExprKind::Call(_, _) => None,
    }
}

fn number_of(value: &Option<Expr>) -> Option<Number>
    ensures { option_map as_operand result ≡ option_and_then number_in value.now }
{
    match value {
        Some(e) => number_in(e),
        None => None,
    }
}

/// The number of a constant, and 0 where it has none. Its value is to be made of literals, constants, operators and casts alone, and
/// not to trap.
pub fn constant_number(e: &NamedExpr, value: &Option<Expr>, notes: &mut Notes) -> i128
    ensures number { result ≡ number_or_zero (folded e.now value.now) }
    ensures notes { notes.new ≡ noted notes.old (not_constant e.now value.now) }
{
    if !is_constant(e) {
        notes.fail(Rule::Constant, e.place);
        return 0;
    }
    match number_of(value) {
        Some(a) => a.n,
        None => {
            if value.is_some() {
                notes.fail(Rule::Constant, e.place);
            }
            0
        }
    }
}
