//! Which of the functions that an expression or statement calls has the greatest number in a table.
#![tactic(auto, using(crate::proofs::CallLemmas::mosts))]

ghost use Rattle.std.specs.Prelude.{◌≡◌, map};
ghost use Rattle.bl_tree.specs.Reduce.{joined};
ghost use Rattle.bl_ctext_semantics.specs.Calls.{calls_in, calls_in_arg, calls_in_block, calls_in_call, calls_in_place, calls_in_step, calls_in_stmt, most};
ghost use Rattle.bl_ctext_semantics.specs.inner.Maps.{text_at};

use crate::maps::{Numbers, number_of};
use bl_tree::c::{CArg, CCall, CExpr, CExprKind, CPlace, CStep, CStmt, CStmtKind};

#[cycle(calling)]
fn most_in_expr(numbers: &Numbers<'_>, expr: &CExpr) -> u64
    ensures { result ≡ most (text_at numbers.now) (calls_in expr.now) }
{
    match &expr.what {
        CExprKind::Literal(_, _) => 0,
        CExprKind::Read(place) => most_in_place(numbers, place),
        CExprKind::Call(call) => most_in_call(numbers, call),
        CExprKind::Not(operand) => most_in_expr(numbers, operand),
        CExprKind::Two(_, left, right) => {
            let left = most_in_expr(numbers, left);
            left.max(most_in_expr(numbers, right))
        }
    }
}

#[cycle(calling)]
fn most_in_place(numbers: &Numbers<'_>, place: &CPlace) -> u64
    ensures { result ≡ most (text_at numbers.now) (calls_in_place place.now) }
{
    most_in_steps(numbers, &place.steps)
}

#[cycle(calling)]
fn most_in_steps(numbers: &Numbers<'_>, steps: &[CStep]) -> u64
    ensures { result ≡ most (text_at numbers.now) (joined (map calls_in_step steps.now)) }
{
    let mut greatest = 0u64;
    for step in steps {
        greatest = greatest.max(most_in_step(numbers, step));
    }
    greatest
}

#[cycle(calling)]
fn most_in_step(numbers: &Numbers<'_>, step: &CStep) -> u64
    ensures { result ≡ most (text_at numbers.now) (calls_in_step step.now) }
{
    match &step.index {
        Some(index) => most_in_expr(numbers, &index.at),
        None => 0,
    }
}

#[cycle(calling)]
fn most_in_call(numbers: &Numbers<'_>, call: &CCall) -> u64
    ensures { result ≡ most (text_at numbers.now) (calls_in_call call.now) }
{
    number_of(numbers, &call.name).max(most_in_args(numbers, &call.args))
}

#[cycle(calling)]
fn most_in_args(numbers: &Numbers<'_>, args: &[CArg]) -> u64
    ensures { result ≡ most (text_at numbers.now) (joined (map calls_in_arg args.now)) }
{
    let mut greatest = 0u64;
    for arg in args {
        greatest = greatest.max(most_in_arg(numbers, arg));
    }
    greatest
}

#[cycle(calling)]
fn most_in_arg(numbers: &Numbers<'_>, arg: &CArg) -> u64
    ensures { result ≡ most (text_at numbers.now) (calls_in_arg arg.now) }
{
    match arg {
        CArg::Value(value) => most_in_expr(numbers, value),
        CArg::Address(place) => most_in_place(numbers, place),
    }
}

#[cycle(calling_statements)]
fn most_in_stmt(numbers: &Numbers<'_>, stmt: &CStmt) -> u64
    ensures { result ≡ most (text_at numbers.now) (calls_in_stmt stmt.now) }
{
    match &stmt.what {
        CStmtKind::Set(place, value) => most_in_place(numbers, place).max(most_in_expr(
            numbers, value,
        )),
        CStmtKind::Clear(place, _) => most_in_place(numbers, place),
        CStmtKind::Call(call) => most_in_call(numbers, call),
        CStmtKind::If(condition, block, Some(other)) => {
            let inside = most_in_block(numbers, block);
            let inside = inside.max(most_in_block(numbers, other));
            most_in_expr(numbers, condition).max(inside)
        }
        CStmtKind::If(condition, block, None) | CStmtKind::Loop(_, condition, block) => {
            let inside = most_in_block(numbers, block);
            most_in_expr(numbers, condition).max(inside)
        }
        CStmtKind::Break => 0,
        CStmtKind::Return(Some(value)) => most_in_expr(numbers, value),
        CStmtKind::Return(None) => 0,
    }
}

/// The greatest number of a function that is called in a block, 0 where none of them has one.
#[cycle(calling_statements)]
pub fn most_in_block(numbers: &Numbers<'_>, block: &[CStmt]) -> u64
    ensures { result ≡ most (text_at numbers.now) (calls_in_block block.now) }
{
    let mut greatest = 0u64;
    for stmt in block {
        greatest = greatest.max(most_in_stmt(numbers, stmt));
    }
    greatest
}
