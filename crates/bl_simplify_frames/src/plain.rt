//! Whether no function that takes a frame is called within expressions.

ghost use Rattle.std.specs.Prelude.{◌≡◌, List, map, not};
ghost use Rattle.std.specs.List.{list_all};
ghost use Rattle.bl_tree.specs.declared.text.Text.{Text};
ghost use Rattle.bl_ctext_places.specs.Names.{HasNames};
ghost use Rattle.bl_ctext_semantics.specs.inner.Maps.{text_at};
ghost use Rattle.bl_simplify_laws.specs.Tables.{has_name};
ghost use Rattle.bl_simplify_laws_frames.specs.Reached.{is_plain_expr as plain_expr, plain_call, plain_place};
ghost use Rattle.bl_simplify_frames.specs.Plain.{plain_arg, plain_step};

use bl_ctext_semantics::maps::has;
use bl_simplify_calls::Framed;
use bl_tree::c::{CArg, CCall, CExpr, CExprKind, CPlace, CStep};

/// Whether a call is of no function that takes a frame.
fn is_of_none(framed: &Framed<'_>, call: &CCall) -> bool
    ensures { (names : List Text) → HasNames (text_at framed.now) names → result ≡ not (has_name names call.now.name) }
{
    !has(framed, &call.name)
}

#[cycle(asking)]
pub fn is_plain_expr(framed: &Framed<'_>, e: &CExpr) -> bool
    ensures { (names : List Text) → HasNames (text_at framed.now) names → result ≡ plain_expr names e.now }
{
    match &e.what {
        CExprKind::Literal(_, _) => true,
        CExprKind::Read(place) => is_plain_place(framed, place),
        CExprKind::Call(call) => is_plain_call(framed, call) & is_of_none(framed, call),
        CExprKind::Not(operand) => is_plain_expr(framed, operand),
        CExprKind::Two(_, left, right) => is_plain_expr(framed, left)
            & is_plain_expr(framed, right),
    }
}

#[cycle(asking)]
pub fn is_plain_place(framed: &Framed<'_>, place: &CPlace) -> bool
    ensures { (names : List Text) → HasNames (text_at framed.now) names → result ≡ (plain_place names place.now).plain }
{
    are_plain_steps(framed, &place.steps)
}

#[cycle(asking)]
fn are_plain_steps(framed: &Framed<'_>, steps: &[CStep]) -> bool
    ensures { (names : List Text) → HasNames (text_at framed.now) names → result ≡ list_all (λ s. s.plain) (map (plain_step names) steps.now) }
{
    let mut plain = true;
    for step in steps {
        plain &= is_plain_step(framed, step);
    }
    plain
}

#[cycle(asking)]
fn is_plain_step(framed: &Framed<'_>, step: &CStep) -> bool
    ensures { (names : List Text) → HasNames (text_at framed.now) names → result ≡ (plain_step names step.now).plain }
{
    match &step.index {
        Some(index) => is_plain_expr(framed, &index.at),
        None => true,
    }
}

/// Whether no function that takes a frame is called in the arguments of a call.
#[cycle(asking)]
pub fn is_plain_call(framed: &Framed<'_>, call: &CCall) -> bool
    ensures { (names : List Text) → HasNames (text_at framed.now) names → result ≡ (plain_call names call.now).plain }
{
    are_plain_args(framed, &call.args)
}

#[cycle(asking)]
fn are_plain_args(framed: &Framed<'_>, args: &[CArg]) -> bool
    ensures { (names : List Text) → HasNames (text_at framed.now) names → result ≡ list_all (λ a. a.plain) (map (plain_arg names) args.now) }
{
    let mut plain = true;
    for arg in args {
        plain &= is_plain_arg(framed, arg);
    }
    plain
}

#[cycle(asking)]
fn is_plain_arg(framed: &Framed<'_>, arg: &CArg) -> bool
    ensures { (names : List Text) → HasNames (text_at framed.now) names → result ≡ (plain_arg names arg.now).plain }
{
    match arg {
        CArg::Value(value) => is_plain_expr(framed, value),
        CArg::Address(place) => is_plain_place(framed, place),
    }
}
