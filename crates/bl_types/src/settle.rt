//! Open expressions where a type is wanted of them.
#![tactic(auto, using(crate::proofs::NoteLemmas::notes))]

ghost use Rattle.std.specs.Prelude.{◌≡◌, IfOk, OnOk};
ghost use Rattle.bl_tree.specs.declared.rule.Rule.TheVariants as rule;
ghost use Rattle.bl_tree.specs.Scalar.{in_range, is_whole};
ghost use Rattle.bl_types.specs.Failures.{noted, unless};
ghost use Rattle.bl_types.specs.Settled.{given, keeps_one_open, keeps_two_open, is_logical, literal, one, one_made, settled, settled_if, two, two_made};

use crate::failure::Notes;
use crate::types::scalar_in;
use bl_tree::tree::{Expr, ExprKind, Ty};
use bl_tree::{Box, NoMemory, Op, Place, Rule, Scalar, Width};
use std::alloc::Global;

/// The type where none is wanted.
pub const INT32: Scalar = Scalar::Int(Width::W32);

/// Whether what the operator gives for two open operands is open.
pub fn keeps_two_open(op: Op) -> bool
    ensures { result ≡ keeps_two_open op }
{
    matches!(
        op,
        Op::Add
            | Op::Sub
            | Op::Mul
            | Op::Div
            | Op::Rem
            | Op::BitAnd
            | Op::BitOr
            | Op::BitXor
            | Op::Shl
            | Op::Shr
    )
}

/// Whether what the operator gives for one open operand is open.
pub fn keeps_one_open(op: Op) -> bool
    ensures { result ≡ keeps_one_open op }
{
    matches!(op, Op::Minus | Op::BitNot)
}

/// Whether the operator takes operands of type bool alone.
pub fn is_logical(op: Op) -> bool
    ensures { result ≡ is_logical op }
{
    matches!(op, Op::And | Op::Or | Op::Not)
}

pub fn literal(at: Place, n: i128, s: Scalar) -> Expr
    ensures { result ≡ literal at n s }
{
    Expr {
        place: at,
        what: ExprKind::Literal(n, s),
    }
}

pub fn one(alloc: Global, at: Place, op: Op, a: Expr) -> Result<Expr, NoMemory>
    ensures { IfOk result (λ made. made ≡ one at op a) }
{
    Ok(Expr {
        place: at,
        what: ExprKind::One(op, Box::new(alloc, a)?),
    })
}

pub fn two(alloc: Global, at: Place, op: Op, a: Expr, b: Expr) -> Result<Expr, NoMemory>
    ensures { IfOk result (λ made. made ≡ two at op a b) }
{
    Ok(Expr {
        place: at,
        what: ExprKind::Two(op, Box::new(alloc, a)?, Box::new(alloc, b)?),
    })
}

#[tactic(auto, using(bl_tree::proofs::NumberLemmas::in_range_passes, bl_tree::proofs::NumberLemmas::in_range_holds))]
fn is_in(s: Scalar, n: i128) -> bool
    ensures { result ≡ in_range s n }
{
    s.contains(n)
}

fn number(at: Place, n: i128, s: Scalar, notes: &mut Notes) -> Expr
    ensures made { result ≡ literal at n s }
    ensures notes { notes.new ≡ noted notes.old (unless (in_range s n) rule.Literal at) }
{
    if !is_in(s, n) {
        notes.fail(Rule::Literal, at);
    }
    literal(at, n, s)
}

fn one_made(
    alloc: Global,
    s: Scalar,
    at: Place,
    op: Op,
    a: Option<Expr>,
    notes: &mut Notes,
) -> Result<Option<Expr>, NoMemory>
    ensures made { IfOk result (λ made. made ≡ (one_made s at op a).made) }
    ensures notes { OnOk result (notes.new ≡ noted notes.old (one_made s at op a).failures) }
{
    match a {
        None => Ok(None),
        Some(a) => {
            if op.takes_one(s) {
                Ok(Some(one(alloc, at, op, a)?))
            } else {
                notes.fail(Rule::Type, at);
                Ok(None)
            }
        }
    }
}

fn two_made(
    alloc: Global,
    s: Scalar,
    at: Place,
    op: Op,
    a: Option<Expr>,
    b: Option<Expr>,
    notes: &mut Notes,
) -> Result<Option<Expr>, NoMemory>
    ensures made { IfOk result (λ made. made ≡ (two_made s at op a b).made) }
    ensures notes { OnOk result (notes.new ≡ noted notes.old (two_made s at op a b).failures) }
{
    let Some(a) = a else {
        return Ok(None);
    };
    let Some(b) = b else {
        return Ok(None);
    };
    if op.takes_two(s) {
        Ok(Some(two(alloc, at, op, a, b)?))
    } else {
        notes.fail(Rule::Type, at);
        Ok(None)
    }
}

/// An open expression, of which this whole-number type is wanted.
pub fn settle(
    alloc: Global,
    s: Scalar,
    e: &Expr,
    notes: &mut Notes,
) -> Result<Option<Expr>, NoMemory>
    ensures made { IfOk result (λ made. made ≡ (settled s e.now).made) }
    ensures notes { OnOk result (notes.new ≡ noted notes.old (settled s e.now).failures) }
{
    match &e.what {
        ExprKind::Literal(n, _) => Ok(Some(number(e.place, *n, s, notes))),
        ExprKind::One(op, a) => {
            let a = settle(alloc, s, a, notes)?;
            one_made(alloc, s, e.place, *op, a, notes)
        }
        ExprKind::Two(op, a, b) => {
            let a = settle(alloc, s, a, notes)?;
            let b = settle(alloc, s, b, notes)?;
            two_made(alloc, s, e.place, *op, a, b, notes)
        }
        ExprKind::Read(_) | ExprKind::Prev(_) | ExprKind::Cast(_, _) | ExprKind::Call(_, _) => Ok(
            None,
        ),
    }
}

/// An open expression, of which this scalar is wanted. It fails at itself where that is bool.
pub fn settle_scalar(
    alloc: Global,
    s: Scalar,
    e: &Expr,
    notes: &mut Notes,
) -> Result<Option<Expr>, NoMemory>
    ensures made { IfOk result (λ made. made ≡ (settled_if (is_whole s) s e.now).made) }
    ensures notes { OnOk result (notes.new ≡ noted notes.old (settled_if (is_whole s) s e.now).failures) }
{
    if s.is_whole() {
        settle(alloc, s, e, notes)
    } else {
        notes.fail(Rule::Type, e.place);
        Ok(None)
    }
}

/// An open expression, of which this type is wanted. It fails at itself where that is bool or an aggregate.
pub fn given(alloc: Global, ty: &Ty, e: &Expr, notes: &mut Notes) -> Result<Option<Expr>, NoMemory>
    ensures made { IfOk result (λ made. made ≡ (given ty.now e.now).made) }
    ensures notes { OnOk result (notes.new ≡ noted notes.old (given ty.now e.now).failures) }
{
    match scalar_in(ty) {
        Some(s) => settle_scalar(alloc, s, e, notes),
        None => {
            notes.fail(Rule::Type, e.place);
            Ok(None)
        }
    }
}
