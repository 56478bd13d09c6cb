//! What a C compiler can tell of a comparison from its text.

ghost use Rattle.std.specs.Prelude.{◌≡◌};
ghost use Rattle.bl_emit_acts.specs.Expressions as expressions;

use bl_tree::c::{CExpr, CExprKind, CPlace, CStep};
use bl_tree::{Op, Scalar};

/// The operator that compares with its sides exchanged.
pub fn mirrored(op: Op) -> Op
    ensures { result ≡ expressions.mirrored op }
{
    match op {
        Op::Lt => Op::Gt,
        Op::Le => Op::Ge,
        Op::Gt => Op::Lt,
        Op::Ge => Op::Le,
        _ => op,
    }
}

fn compares_alike(op: Op, t: Scalar, n: i128) -> bool
    ensures { result ≡ expressions.compares_alike op t n }
{
    match op {
        Op::Lt | Op::Ge => n == t.range().low,
        Op::Gt | Op::Le => n == t.range().high,
        _ => false,
    }
}

/// Whether all numbers, on the left of the operator, compare with the expression alike, since that is a constant at an end of its type.
pub fn is_decided(op: Op, code: &CExpr) -> bool
    ensures { result ≡ expressions.is_decided op code.now }
{
    match &code.what {
        CExprKind::Literal(t, n) => compares_alike(op, *t, *n),
        _ => false,
    }
}

fn is_constant(code: &CExpr) -> bool
    ensures { result ≡ expressions.is_constant code.now }
{
    matches!(&code.what, CExprKind::Literal(_, _))
}

fn same_step(p: &CStep, q: &CStep) -> bool
    ensures { result ≡ expressions.same_step p.now q.now }
{
    p.member.as_str() == q.member.as_str() && p.index.is_none() && q.index.is_none()
}

fn same_steps(ps: &[CStep], qs: &[CStep]) -> bool
    ensures { result ≡ expressions.same_steps ps.now qs.now }
{
    if ps.len() != qs.len() {
        return false;
    }
    for k in 0..ps.len() {
        if !same_step(&ps[k], &qs[k]) {
            return false;
        }
    }
    true
}

fn same_written(p: &CPlace, q: &CPlace) -> bool
    ensures { result ≡ expressions.same_written p.now q.now }
{
    p.name.as_str() == q.name.as_str() && same_steps(&p.steps, &q.steps)
}

/// Whether both expressions read places that are written alike, with no index.
fn same_read(a: &CExpr, b: &CExpr) -> bool
    ensures { result ≡ expressions.same_read a.now b.now }
{
    match (&a.what, &b.what) {
        (CExprKind::Read(p), CExprKind::Read(q)) => same_written(p, q),
        _ => false,
    }
}

/// Whether the right side of a comparison is hidden.
pub fn hides_right(op: Op, a: &CExpr, b: &CExpr) -> bool
    ensures { result ≡ expressions.hides_right op a.now b.now }
{
    is_decided(op, b) || (is_constant(a) && is_constant(b)) || same_read(a, b)
}
