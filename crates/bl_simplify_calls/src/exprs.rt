//! Whether all calls in expressions may be made.

ghost use Rattle.std.specs.Prelude.{◌≡◌, ◌||◌, List, map, not};
ghost use Rattle.std.specs.List.{list_all};
ghost use Rattle.bl_tree.specs.declared.text.Text.{Text};
ghost use Rattle.bl_ctext_semantics.specs.inner.Maps.{text_at};
ghost use Rattle.bl_simplify_laws.specs.Spots.{spot_of_place};
ghost use Rattle.bl_simplify_laws.specs.Tables.{apart_from_lent, calls_stand_in_call, calls_stand_in_expr, calls_stand_in_place, first_apart, has_name, own_lent};
ghost use Rattle.bl_simplify_calls.specs.Checks.{arg_check, step_check};
ghost use Rattle.bl_ctext_places.specs.Names.{HasNames};

use crate::apart::are_apart;
use crate::functions::Framed;
use bl_ctext_semantics::maps::has;
use bl_tree::c::{CArg, CCall, CExpr, CExprKind, CPlace, CStep};

/// Whether no argument passes on the address of something in common with a place.
fn are_others_apart(own: &CPlace, args: &[CArg]) -> bool
    ensures { (names : List Text) → result ≡ list_all (λ a. apart_from_lent (spot_of_place own.now) a.lent) (map (arg_check names) args.now) }
{
    let mut apart = true;
    for arg in args {
        apart &= is_other_apart(own, arg);
    }
    apart
}

fn is_other_apart(own: &CPlace, arg: &CArg) -> bool
    ensures { (names : List Text) → result ≡ apart_from_lent (spot_of_place own.now) (arg_check names arg.now).lent }
{
    match arg {
        CArg::Value(_) => true,
        CArg::Address(place) => are_apart(own, place),
    }
}

/// Whether an argument is an address, and leads apart from others.
fn leads_apart(first: &CArg, others: &[CArg]) -> bool
    ensures { (names : List Text) → result ≡ own_lent (arg_check names first.now).lent (map (arg_check names) others.now) }
{
    match first {
        CArg::Address(own) => are_others_apart(own, others),
        CArg::Value(_) => false,
    }
}

/// Whether the first argument is an address, and leads apart from further ones.
fn is_first_apart(args: &[CArg]) -> bool
    ensures { (names : List Text) → result ≡ first_apart (map (arg_check names) args.now) }
{
    match args {
        [first, others @ ..] => leads_apart(first, others),
        [] => false,
    }
}

/// Whether a call passes on the address of a frame first, where its function takes one.
fn fits_frame(framed: &Framed<'_>, call: &CCall) -> bool
    ensures { (names : List Text) → HasNames (text_at framed.now) names →
        result ≡ (not (has_name names call.now.name) || first_apart (map (arg_check names) call.now.args)) }
{
    !has(framed, &call.name) || is_first_apart(&call.args)
}

#[cycle(standing)]
pub fn in_expr(framed: &Framed<'_>, e: &CExpr) -> bool
    ensures { (names : List Text) → HasNames (text_at framed.now) names → result ≡ calls_stand_in_expr names e.now }
{
    match &e.what {
        CExprKind::Literal(_, _) => true,
        CExprKind::Read(place) => in_place(framed, place),
        CExprKind::Call(call) => in_call(framed, call),
        CExprKind::Not(operand) => in_expr(framed, operand),
        CExprKind::Two(_, left, right) => in_expr(framed, left) & in_expr(framed, right),
    }
}

#[cycle(standing)]
pub fn in_place(framed: &Framed<'_>, place: &CPlace) -> bool
    ensures { (names : List Text) → HasNames (text_at framed.now) names → result ≡ (calls_stand_in_place names place.now).stands }
{
    in_steps(framed, &place.steps)
}

#[cycle(standing)]
fn in_steps(framed: &Framed<'_>, steps: &[CStep]) -> bool
    ensures { (names : List Text) → HasNames (text_at framed.now) names → result ≡ list_all (λ s. s.stands) (map (step_check names) steps.now) }
{
    let mut stand = true;
    for step in steps {
        stand &= in_step(framed, step);
    }
    stand
}

#[cycle(standing)]
fn in_step(framed: &Framed<'_>, step: &CStep) -> bool
    ensures { (names : List Text) → HasNames (text_at framed.now) names → result ≡ (step_check names step.now).stands }
{
    match &step.index {
        Some(index) => in_expr(framed, &index.at),
        None => true,
    }
}

#[cycle(standing)]
pub fn in_call(framed: &Framed<'_>, call: &CCall) -> bool
    ensures { (names : List Text) → HasNames (text_at framed.now) names → result ≡ calls_stand_in_call names call.now }
{
    in_args(framed, &call.args) & fits_frame(framed, call)
}

#[cycle(standing)]
fn in_args(framed: &Framed<'_>, args: &[CArg]) -> bool
    ensures { (names : List Text) → HasNames (text_at framed.now) names → result ≡ list_all (λ a. a.stands) (map (arg_check names) args.now) }
{
    let mut stand = true;
    for arg in args {
        stand &= in_arg(framed, arg);
    }
    stand
}

#[cycle(standing)]
fn in_arg(framed: &Framed<'_>, arg: &CArg) -> bool
    ensures { (names : List Text) → HasNames (text_at framed.now) names → result ≡ (arg_check names arg.now).stands }
{
    match arg {
        CArg::Value(value) => in_expr(framed, value),
        CArg::Address(place) => in_place(framed, place),
    }
}
