//! Forms with operators, by the forms of their operands.
#![tactic(auto, using(crate::proofs::NoteLemmas::notes))]

ghost use Rattle.std.specs.Prelude.{◌≡◌, IfOk, OnOk, Some, option_and_then};
ghost use Rattle.bl_tree.specs.Types.{scalar, scalar_in};
ghost use Rattle.bl_tree.specs.Typing.{cast_type, one_type};
ghost use Rattle.bl_types.specs.Expressions.{beside, beside_none, cast, cast_formed, closed_form, fitting, formed_as, one_formed, open_two, operands_made};
ghost use Rattle.bl_types.specs.Expressions.{settled_two, two_formed, unwanted, type_of_two};
ghost use Rattle.bl_types.specs.Failures.{noted};
ghost use Rattle.bl_types.specs.Settled.{int32};
ghost use Rattle.bl_types.specs.declared.form.Form.TheVariants.{Of, Open};

use crate::failure::Notes;
use crate::form::Form;
use crate::settle::{
    INT32, given, is_logical, keeps_one_open, keeps_two_open, one, settle, settle_scalar, two,
};
use crate::types::{same_scalar, same_type, scalar_in};
use bl_tree::tree::{Expr, ExprKind, Ty};
use bl_tree::{Box, NoMemory, Op, Place, Rule, Scalar};
use std::alloc::Global;

fn type_of_one(op: Op, ty: &Ty) -> Option<Ty>
    ensures { result ≡ option_and_then (one_type op) (scalar_in ty.now) }
{
    match scalar_in(ty) {
        Some(s) => {
            if op.takes_one(s) {
                Some(Ty::Scalar(op.type_of_result(s)))
            } else {
                None
            }
        }
        None => None,
    }
}

fn type_of_two(op: Op, ty: &Ty, other: &Ty) -> Option<Ty>
    ensures { result ≡ type_of_two op ty.now other.now }
{
    let s = scalar_in(ty)?;
    let t = scalar_in(other)?;
    if same_scalar(s, t) && op.takes_two(s) {
        Some(Ty::Scalar(op.type_of_result(s)))
    } else {
        None
    }
}

fn type_of_cast(target: Scalar, ty: &Ty) -> Option<Ty>
    ensures { result ≡ option_and_then (cast_type target) (scalar_in ty.now) }
{
    match scalar_in(ty) {
        Some(s) => {
            if target.is_whole() && s.is_whole() {
                Some(Ty::Scalar(target))
            } else {
                None
            }
        }
        None => None,
    }
}

fn formed(ty: Option<Ty>, at: Place, e: Expr, notes: &mut Notes) -> Form
    ensures form { result ≡ (formed_as ty at e).form }
    ensures notes { notes.new ≡ noted notes.old (formed_as ty at e).failures }
{
    match ty {
        Some(ty) => Form::Of(ty, e),
        None => {
            notes.fail(Rule::Type, at);
            Form::Failing
        }
    }
}

pub fn of_one(
    alloc: Global,
    at: Place,
    op: Op,
    a: Form,
    notes: &mut Notes,
) -> Result<Form, NoMemory>
    ensures form { IfOk result (λ form. form ≡ (one_formed at op a).form) }
    ensures notes { OnOk result (notes.new ≡ noted notes.old (one_formed at op a).failures) }
{
    match a {
        Form::Failing => Ok(Form::Failing),
        Form::Open(a) => {
            if keeps_one_open(op) {
                Ok(Form::Open(one(alloc, at, op, a)?))
            } else {
                notes.fail(Rule::Type, a.place);
                Ok(Form::Failing)
            }
        }
        Form::Of(ty, a) => {
            let a = one(alloc, at, op, a)?;
            Ok(formed(type_of_one(op, &ty), at, a, notes))
        }
    }
}

/// An open operand beside one of this type.
fn beside(
    alloc: Global,
    op: Op,
    ty: &Ty,
    e: &Expr,
    notes: &mut Notes,
) -> Result<Option<Expr>, NoMemory>
    ensures made { IfOk result (λ made. made ≡ (beside op ty.now e.now).made) }
    ensures notes { OnOk result (notes.new ≡ noted notes.old (beside op ty.now e.now).failures) }
{
    if is_logical(op) {
        notes.fail(Rule::Type, e.place);
        return Ok(None);
    }
    given(alloc, ty, e, notes)
}

/// Operands of which the operator gives this type, unless one of them fails.
fn operands_made(
    alloc: Global,
    at: Place,
    op: Op,
    ty: Option<Ty>,
    a: Option<Expr>,
    b: Option<Expr>,
    notes: &mut Notes,
) -> Result<Form, NoMemory>
    ensures form { IfOk result (λ form. form ≡ (operands_made at op ty a b).form) }
    ensures notes { OnOk result (notes.new ≡ noted notes.old (operands_made at op ty a b).failures) }
{
    let Some(a) = a else {
        return Ok(Form::Failing);
    };
    let Some(b) = b else {
        return Ok(Form::Failing);
    };
    let made = two(alloc, at, op, a, b)?;
    Ok(formed(ty, at, made, notes))
}

fn int32() -> Ty
    ensures { result ≡ scalar int32 }
{
    Ty::Scalar(INT32)
}

/// A form with an operand that has no type: it has none either. Of the other operand nothing is wanted but what the operator wants.
fn beside_none(alloc: Global, op: Op, other: Form, notes: &mut Notes) -> Result<Form, NoMemory>
    ensures form { IfOk result (λ form. form ≡ (beside_none op other).form) }
    ensures notes { OnOk result (notes.new ≡ noted notes.old (beside_none op other).failures) }
{
    if let Form::Open(e) = other {
        let int32 = int32();
        beside(alloc, op, &int32, &e, notes)?;
    }
    Ok(Form::Failing)
}

/// Two open operands that take `int32`.
fn settled_two(
    alloc: Global,
    at: Place,
    op: Op,
    a: &Expr,
    b: &Expr,
    notes: &mut Notes,
) -> Result<Form, NoMemory>
    ensures form { IfOk result (λ form. form ≡ (settled_two at op a.now b.now).form) }
    ensures notes { OnOk result (notes.new ≡ noted notes.old (settled_two at op a.now b.now).failures) }
{
    let int32 = int32();
    let a = beside(alloc, op, &int32, a, notes)?;
    let b = beside(alloc, op, &int32, b, notes)?;
    operands_made(alloc, at, op, type_of_two(op, &int32, &int32), a, b, notes)
}

fn open_two(
    alloc: Global,
    at: Place,
    op: Op,
    a: Expr,
    b: Expr,
    notes: &mut Notes,
) -> Result<Form, NoMemory>
    ensures form { IfOk result (λ form. form ≡ (open_two at op a b).form) }
    ensures notes { OnOk result (notes.new ≡ noted notes.old (open_two at op a b).failures) }
{
    if keeps_two_open(op) {
        Ok(Form::Open(two(alloc, at, op, a, b)?))
    } else {
        settled_two(alloc, at, op, &a, &b, notes)
    }
}

fn open_and_typed(
    alloc: Global,
    at: Place,
    op: Op,
    a: Expr,
    ty: Ty,
    b: Expr,
    notes: &mut Notes,
) -> Result<Form, NoMemory>
    ensures form { IfOk result (λ form. form ≡ (two_formed at op (Open a) (Of ty b)).form) }
    ensures notes { OnOk result (notes.new ≡ noted notes.old (two_formed at op (Open a) (Of ty b)).failures) }
{
    let a = beside(alloc, op, &ty, &a, notes)?;
    operands_made(alloc, at, op, type_of_two(op, &ty, &ty), a, Some(b), notes)
}

fn typed_and_open(
    alloc: Global,
    at: Place,
    op: Op,
    ty: Ty,
    a: Expr,
    b: Expr,
    notes: &mut Notes,
) -> Result<Form, NoMemory>
    ensures form { IfOk result (λ form. form ≡ (two_formed at op (Of ty a) (Open b)).form) }
    ensures notes { OnOk result (notes.new ≡ noted notes.old (two_formed at op (Of ty a) (Open b)).failures) }
{
    let b = beside(alloc, op, &ty, &b, notes)?;
    operands_made(alloc, at, op, type_of_two(op, &ty, &ty), Some(a), b, notes)
}

/// A form with two operands, of which the left is open.
fn after_open(
    alloc: Global,
    at: Place,
    op: Op,
    a: Expr,
    b: Form,
    notes: &mut Notes,
) -> Result<Form, NoMemory>
    ensures form { IfOk result (λ form. form ≡ (two_formed at op (Open a) b).form) }
    ensures notes { OnOk result (notes.new ≡ noted notes.old (two_formed at op (Open a) b).failures) }
{
    match b {
        Form::Failing => beside_none(alloc, op, Form::Open(a), notes),
        Form::Open(b) => open_two(alloc, at, op, a, b, notes),
        Form::Of(ty, b) => open_and_typed(alloc, at, op, a, ty, b, notes),
    }
}

/// A form with two operands, of which the left has this type.
fn after_typed(
    alloc: Global,
    at: Place,
    op: Op,
    ty: Ty,
    a: Expr,
    b: Form,
    notes: &mut Notes,
) -> Result<Form, NoMemory>
    ensures form { IfOk result (λ form. form ≡ (two_formed at op (Of ty a) b).form) }
    ensures notes { OnOk result (notes.new ≡ noted notes.old (two_formed at op (Of ty a) b).failures) }
{
    match b {
        Form::Failing => Ok(Form::Failing),
        Form::Open(b) => typed_and_open(alloc, at, op, ty, a, b, notes),
        Form::Of(other, b) => {
            let made = type_of_two(op, &ty, &other);
            operands_made(alloc, at, op, made, Some(a), Some(b), notes)
        }
    }
}

pub fn of_two(
    alloc: Global,
    at: Place,
    op: Op,
    a: Form,
    b: Form,
    notes: &mut Notes,
) -> Result<Form, NoMemory>
    ensures form { IfOk result (λ form. form ≡ (two_formed at op a b).form) }
    ensures notes { OnOk result (notes.new ≡ noted notes.old (two_formed at op a b).failures) }
{
    match a {
        Form::Failing => beside_none(alloc, op, b, notes),
        Form::Open(a) => after_open(alloc, at, op, a, b, notes),
        Form::Of(ty, a) => after_typed(alloc, at, op, ty, a, b, notes),
    }
}

fn cast(alloc: Global, at: Place, target: Scalar, a: Expr) -> Result<Expr, NoMemory>
    ensures { IfOk result (λ made. made ≡ cast at target a) }
{
    Ok(Expr {
        place: at,
        what: ExprKind::Cast(target, Box::new(alloc, a)?),
    })
}

pub fn of_cast(
    alloc: Global,
    at: Place,
    target: Scalar,
    a: Form,
    notes: &mut Notes,
) -> Result<Form, NoMemory>
    ensures form { IfOk result (λ form. form ≡ (cast_formed at target a).form) }
    ensures notes { OnOk result (notes.new ≡ noted notes.old (cast_formed at target a).failures) }
{
    match a {
        Form::Failing => Ok(Form::Failing),
        Form::Open(a) => match settle_scalar(alloc, target, &a, notes)? {
            Some(a) => Ok(Form::Of(Ty::Scalar(target), cast(alloc, at, target, a)?)),
            None => Ok(Form::Failing),
        },
        Form::Of(ty, a) => {
            let a = cast(alloc, at, target, a)?;
            Ok(formed(type_of_cast(target, &ty), at, a, notes))
        }
    }
}

/// An expression of which this type is wanted, in its place.
pub fn fitting(
    alloc: Global,
    wanted: &Ty,
    at: Place,
    form: Form,
    notes: &mut Notes,
) -> Result<Option<Expr>, NoMemory>
    ensures made { IfOk result (λ made. made ≡ (fitting (Some wanted.now) at form).made) }
    ensures notes { OnOk result (notes.new ≡ noted notes.old (fitting (Some wanted.now) at form).failures) }
{
    match form {
        Form::Failing => Ok(None),
        Form::Open(e) => given(alloc, wanted, &e, notes),
        Form::Of(ty, e) => {
            if same_type(wanted, &ty) {
                Ok(Some(e))
            } else {
                notes.fail(Rule::Type, at);
                Ok(None)
            }
        }
    }
}

/// An expression of which nothing is wanted, in its place.
pub fn unwanted(alloc: Global, form: Form, notes: &mut Notes) -> Result<Option<Expr>, NoMemory>
    ensures made { IfOk result (λ made. made ≡ (unwanted form).made) }
    ensures notes { OnOk result (notes.new ≡ noted notes.old (unwanted form).failures) }
{
    match form {
        Form::Failing => Ok(None),
        Form::Open(e) => settle(alloc, INT32, &e, notes),
        Form::Of(_, e) => Ok(Some(e)),
    }
}

/// The same with its type.
pub fn closed(alloc: Global, form: Form, notes: &mut Notes) -> Result<Form, NoMemory>
    ensures form { IfOk result (λ form_. form_ ≡ (closed_form form).form) }
    ensures notes { OnOk result (notes.new ≡ noted notes.old (closed_form form).failures) }
{
    match form {
        Form::Open(e) => match settle(alloc, INT32, &e, notes)? {
            Some(e) => Ok(Form::Of(Ty::Scalar(INT32), e)),
            None => Ok(Form::Failing),
        },
        _ => Ok(form),
    }
}
