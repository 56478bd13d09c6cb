//! Which expressions and places have a spelling, and how deep their brackets go.

ghost use Rattle.std.specs.Prelude.{◌≡◌, map};
ghost use Rattle.bl_tree.specs.Reduce.{all_of, greatest};
ghost use Rattle.bl_ctext.specs.Spellable.{is_c_operator as c_operator};
ghost use Rattle.bl_ctext.specs.Spellable.{spells_arg, spells_call, spells_expr, spells_index, spells_kind, spells_place, spells_step};
ghost use Rattle.bl_ctext.specs.inner.Depths.{arg_depth, call_depth, expr_depth, index_depth, kind_depth, place_depth, step_depth};
ghost use Rattle.bl_ctext_spelled.specs.Deep.{Spelled};

use crate::depth::{deeper, flat, within};
use crate::literals::{is_length, is_literal};
use bl_cparse_syntax::words::{is_callee, is_name};
use bl_tree::c::{CArg, CCall, CExpr, CExprKind, CIndex, CPlace, CStep};
use bl_tree::scalar::Op;

/// Whether an operator is one of C texts.
fn is_c_operator(op: Op) -> bool
    ensures { result ≡ c_operator op }
{
    matches!(
        op,
        Op::Eq | Op::Ne | Op::Lt | Op::Le | Op::Gt | Op::Ge | Op::And | Op::Or
    )
}

#[cycle(spelling)]
pub fn of_expr(e: &CExpr) -> Option<usize>
    ensures { Spelled (spells_expr e.now) (expr_depth e.now) result }
{
    of_kind(&e.what)
}

#[cycle(spelling)]
fn of_kind(what: &CExprKind) -> Option<usize>
    ensures { Spelled (spells_kind what.now) (kind_depth what.now) result }
{
    match what {
        CExprKind::Literal(ty, n) => within(flat(is_literal(*ty, *n)), 2),
        CExprKind::Read(place) => of_place(place),
        CExprKind::Call(call) => of_call(call),
        CExprKind::Not(operand) => within(of_expr(operand), 1),
        CExprKind::Two(op, left, right) => {
            let sides = deeper(of_expr(left), of_expr(right));
            within(deeper(flat(is_c_operator(*op)), sides), 1)
        }
    }
}

#[cycle(spelling)]
pub fn of_place(place: &CPlace) -> Option<usize>
    ensures { Spelled (spells_place place.now) (place_depth place.now) result }
{
    let name = within(flat(is_name(place.name.as_str().as_bytes())), 1);
    deeper(name, of_steps(&place.steps))
}

#[cycle(spelling)]
fn of_steps(steps: &[CStep]) -> Option<usize>
    ensures { Spelled (all_of (map spells_step steps.now)) (greatest (map step_depth steps.now)) result }
{
    let mut depth = Some(0);
    for step in steps {
        depth = deeper(depth, of_step(step));
    }
    depth
}

#[cycle(spelling)]
fn of_step(step: &CStep) -> Option<usize>
    ensures { Spelled (spells_step step.now) (step_depth step.now) result }
{
    let member = flat(is_name(step.member.as_str().as_bytes()));
    match &step.index {
        None => member,
        Some(index) => deeper(member, of_index(index)),
    }
}

#[cycle(spelling)]
fn of_index(index: &CIndex) -> Option<usize>
    ensures { Spelled (spells_index index.now) (index_depth index.now) result }
{
    within(deeper(of_expr(&index.at), flat(is_length(index.length))), 2)
}

#[cycle(spelling)]
pub fn of_call(call: &CCall) -> Option<usize>
    ensures { Spelled (spells_call call.now) (call_depth call.now) result }
{
    within(
        deeper(
            flat(is_callee(call.name.as_str().as_bytes())),
            of_args(&call.args),
        ),
        1,
    )
}

#[cycle(spelling)]
fn of_args(args: &[CArg]) -> Option<usize>
    ensures { Spelled (all_of (map spells_arg args.now)) (greatest (map arg_depth args.now)) result }
{
    let mut depth = Some(0);
    for arg in args {
        depth = deeper(depth, of_arg(arg));
    }
    depth
}

#[cycle(spelling)]
fn of_arg(arg: &CArg) -> Option<usize>
    ensures { Spelled (spells_arg arg.now) (arg_depth arg.now) result }
{
    match arg {
        CArg::Value(value) => of_expr(value),
        CArg::Address(place) => of_place(place),
    }
}
