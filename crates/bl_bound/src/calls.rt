//! The costs of the functions that are called in expressions, each call counted.

ghost use Rattle.std.specs.Prelude.{◌≡◌, map};
ghost use Rattle.bl_tree.specs.Reduce.{joined};
ghost use Rattle.bl_ctext_semantics.specs.Calls.{calls_in, calls_in_arg, calls_in_call, calls_in_place, calls_in_step};
ghost use Rattle.bl_ctext_semantics.specs.Cost.{cost_of_calls};
ghost use Rattle.bl_ctext_semantics.specs.Tables.{entry_or};
ghost use Rattle.bl_bound.specs.inner.Capped.{amount, capped, costs_in};

use crate::cost::Cost;
use bl_ctext_semantics::maps::find;
use bl_tree::c::{CArg, CCall, CExpr, CExprKind, CPlace, CStep};
use std::collections::HashMap;

/// The costs of functions by their names. The prelude's functions have none.
pub type Known<'a> = HashMap<&'a str, Cost>;

fn of_function(known: &Known<'_>, name: &str) -> Cost
    ensures { amount result ≡ capped (entry_or 0 (costs_in known.now) name.now) }
{
    match find(known, name) {
        Some(cost) => cost,
        None => Cost::Number(0),
    }
}

/// What is called in an expression.
#[cycle(calling)]
pub fn in_expr(known: &Known<'_>, expr: &CExpr) -> Cost
    ensures { amount result ≡ capped (cost_of_calls (costs_in known.now) (calls_in expr.now)) }
{
    match &expr.what {
        CExprKind::Literal(_, _) => Cost::Number(0),
        CExprKind::Read(place) => in_place(known, place),
        CExprKind::Call(call) => in_call(known, call),
        CExprKind::Not(operand) => in_expr(known, operand),
        CExprKind::Two(_, left, right) => in_expr(known, left).plus(in_expr(known, right)),
    }
}

/// What is called in the indices of a place.
#[cycle(calling)]
pub fn in_place(known: &Known<'_>, place: &CPlace) -> Cost
    ensures { amount result ≡ capped (cost_of_calls (costs_in known.now) (calls_in_place place.now)) }
{
    in_steps(known, &place.steps)
}

#[cycle(calling)]
fn in_steps(known: &Known<'_>, steps: &[CStep]) -> Cost
    ensures { amount result ≡ capped (cost_of_calls (costs_in known.now) (joined (map calls_in_step steps.now))) }
{
    let mut cost = Cost::Number(0);
    for step in steps {
        cost = cost.plus(in_step(known, step));
    }
    cost
}

#[cycle(calling)]
fn in_step(known: &Known<'_>, step: &CStep) -> Cost
    ensures { amount result ≡ capped (cost_of_calls (costs_in known.now) (calls_in_step step.now)) }
{
    match &step.index {
        Some(index) => in_expr(known, &index.at),
        None => Cost::Number(0),
    }
}

/// What a call calls: its function, and those that are called in its arguments.
#[cycle(calling)]
pub fn in_call(known: &Known<'_>, call: &CCall) -> Cost
    ensures { amount result ≡ capped (cost_of_calls (costs_in known.now) (calls_in_call call.now)) }
{
    of_function(known, &call.name).plus(in_args(known, &call.args))
}

#[cycle(calling)]
fn in_args(known: &Known<'_>, args: &[CArg]) -> Cost
    ensures { amount result ≡ capped (cost_of_calls (costs_in known.now) (joined (map calls_in_arg args.now))) }
{
    let mut cost = Cost::Number(0);
    for arg in args {
        cost = cost.plus(in_arg(known, arg));
    }
    cost
}

#[cycle(calling)]
fn in_arg(known: &Known<'_>, arg: &CArg) -> Cost
    ensures { amount result ≡ capped (cost_of_calls (costs_in known.now) (calls_in_arg arg.now)) }
{
    match arg {
        CArg::Value(value) => in_expr(known, value),
        CArg::Address(place) => in_place(known, place),
    }
}
