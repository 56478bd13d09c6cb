//! Expressions, places and calls: their types, and the first place where something in them fails.
#![tactic(auto, using(crate::proofs::FirstLemmas::places))]

ghost use Rattle.std.specs.Prelude.{◌≡◌, ◌&&◌, ◌||◌, is_some, map, not, option_and_then, option_map};
ghost use Rattle.bl_tree.specs.Reduce.{any_of, joined};
ghost use Rattle.bl_ctext_semantics.specs.inner.Checked.{context_of, fits_nth, is_handed, judged_args, signature_for, type_of, wants_up_to};
ghost use Rattle.bl_ctext_semantics.specs.Faults.{agree as agree_c, bool_type, earlier_of, first_place, fit_args, if_typed, is_void, judge_into};
ghost use Rattle.bl_ctext_semantics.specs.Faults.{judge_member, judge_root, judge_steps as spec_steps, judged_arg, judged_call, judged_expr, judged_index};
ghost use Rattle.bl_ctext_semantics.specs.Faults.{judged_place, judged_step, known_result, operand_type, result_type, takes as takes_c};
ghost use Rattle.bl_ctext_semantics.specs.Faults.{unless as fails_unless, void_as_statement};

use crate::check::context::{Callee, Context};
use crate::check::first::{both, earlier, either, unless};
use crate::check::types::{Ty, agree, fits_param, indexes, takes};
use crate::maps::find;
use bl_tree::c::{CArg, CCall, CExpr, CExprKind, CIndex, CMember, CPlace, CStep};
use bl_tree::{Op, Place, Scalar};

/// What is known of an expression.
#[derive(Clone, Copy)]
pub struct Judged<'a> {
    /// None where its form gives no type.
    pub ty: Option<Ty<'a>>,
    /// Where something in it fails first.
    pub first: Option<Place>,
}

/// What is known of a place.
#[derive(Clone, Copy)]
pub struct JudgedPlace<'a> {
    pub ty: Option<Ty<'a>>,
    /// Whether it begins with `(*`.
    pub through: bool,
    pub first: Option<Place>,
}

/// What is known of a call.
#[derive(Clone, Copy)]
pub struct JudgedCall {
    /// The result of its function, where the function is known.
    pub result: Option<Option<Scalar>>,
    pub first: Option<Place>,
}

/// What is known of an index: its length, and where something in it fails first.
#[derive(Clone, Copy)]
struct JudgedIndex {
    length: u32,
    first: Option<Place>,
}

#[derive(Clone, Copy)]
struct JudgedArg<'a> {
    /// Whether `&` stands before it.
    address: bool,
    /// Whether it then begins with `(*`.
    through: bool,
    ty: Option<Ty<'a>>,
    first: Option<Place>,
}

#[derive(Clone, Copy)]
struct JudgedArgs {
    /// Whether they are those that the function wants.
    fit: bool,
    /// Whether one of them is a place after `&` that begins with `(*`.
    handed: bool,
    first: Option<Place>,
}

#[cycle(judging)]
pub fn judge_expr<'a>(context: &Context<'_, 'a>, expr: &'a CExpr) -> Judged<'a>
    ensures ty { option_map type_of result.ty ≡ (judged_expr expr.now (context_of context.now)).ty }
    ensures first { result.first ≡ first_place (judged_expr expr.now (context_of context.now)).faults }
{
    let at = expr.place;
    match &expr.what {
        CExprKind::Literal(scalar, _) => Judged {
            ty: Some(Ty::Scalar(*scalar)),
            first: None,
        },
        CExprKind::Read(place) => {
            let place = judge_place(context, place, at);
            Judged {
                ty: place.ty,
                first: place.first,
            }
        }
        CExprKind::Call(call) => result_of(judge_call(context, call, at), at),
        CExprKind::Not(operand) => negated(&judge_expr(context, operand), at),
        CExprKind::Two(op, left, right) => {
            let left = judge_expr(context, left);
            let right = judge_expr(context, right);
            compared(*op, &left, &right, at)
        }
    }
}

/// A call in an expression.
fn result_of<'a>(call: JudgedCall, at: Place) -> Judged<'a>
    ensures ty { option_map type_of result.ty ≡ result_type call.result }
    ensures first { result.first ≡ earlier_of call.first (first_place (fails_unless (not (is_void call.result)) void_as_statement at)) }
{
    let ty = match call.result {
        Some(Some(scalar)) => Some(Ty::Scalar(scalar)),
        _ => None,
    };
    let is_void = matches!(call.result, Some(None));
    Judged {
        ty,
        first: earlier(call.first, unless(!is_void, at)),
    }
}

/// An operand after `!`.
fn negated<'a>(operand: &Judged<'a>, at: Place) -> Judged<'a>
    ensures ty { option_map type_of result.ty ≡ Some bool_type }
    ensures first { result.first ≡ earlier_of operand.now.first
        (first_place (fails_unless (agree_c (option_map type_of operand.now.ty) (Some bool_type)) operand_type at)) }
{
    let bool_ty = Some(Ty::Scalar(Scalar::Bool));
    Judged {
        ty: bool_ty,
        first: earlier(operand.first, unless(agree(operand.ty, bool_ty), at)),
    }
}

/// Whether an operator takes an operand, of which perhaps nothing is known.
fn takes_typed(op: Op, ty: Option<Ty<'_>>) -> bool
    ensures { result ≡ if_typed (option_map type_of ty.entry) (takes_c op) }
{
    match ty {
        Some(ty) => takes(op, ty),
        None => true,
    }
}

/// Two operands of an operator.
fn compared<'a>(op: Op, left: &Judged<'a>, right: &Judged<'a>, at: Place) -> Judged<'a>
    ensures ty { option_map type_of result.ty ≡ Some bool_type }
    ensures first { result.first ≡ earlier_of left.now.first (earlier_of right.now.first (first_place (fails_unless
        (if_typed (option_map type_of left.now.ty) (takes_c op) && if_typed (option_map type_of right.now.ty) (takes_c op)
        && agree_c (option_map type_of left.now.ty) (option_map type_of right.now.ty))
        operand_type at))) }
{
    let fit = takes_typed(op, left.ty) && takes_typed(op, right.ty) && agree(left.ty, right.ty);
    Judged {
        ty: Some(Ty::Scalar(Scalar::Bool)),
        first: earlier(left.first, earlier(right.first, unless(fit, at))),
    }
}

/// A place in the expression or statement at a place of the text.
#[cycle(judging)]
pub fn judge_place<'a>(context: &Context<'_, 'a>, place: &'a CPlace, at: Place) -> JudgedPlace<'a>
    ensures ty { option_map type_of result.ty ≡ (judged_place place.now (context_of context.now) at).ty }
    ensures through { result.through ≡ (judged_place place.now (context_of context.now) at).through }
    ensures first { result.first ≡ first_place (judged_place place.now (context_of context.now) at).faults }
{
    let root = judge_variable(context, &place.name, place.through, at);
    let steps = judge_steps(context, &place.steps, at, root.ty);
    JudgedPlace {
        ty: steps.ty,
        through: place.through,
        first: earlier(root.first, steps.first),
    }
}

/// Where a place begins.
fn judge_variable<'a>(context: &Context<'_, 'a>, name: &str, through: bool, at: Place) -> Judged<'a>
    ensures ty { option_map type_of result.ty ≡ (judge_root ((context_of context.now).variables name.now) through at).ty }
    ensures first { result.first ≡ first_place (judge_root ((context_of context.now).variables name.now) through at).faults }
{
    match find(context.variables, name) {
        Some(variable) if variable.pointer == through => Judged {
            ty: Some(Ty::of(variable.ty)),
            first: None,
        },
        _ => Judged {
            ty: None,
            first: Some(at),
        },
    }
}

/// The steps of a place, which begin at a type.
#[cycle(judging)]
fn judge_steps<'a>(
    context: &Context<'_, 'a>,
    steps: &'a [CStep],
    at: Place,
    from: Option<Ty<'a>>,
) -> Judged<'a>
    ensures ty { option_map type_of result.ty ≡ (spec_steps (map judged_step steps.now) (context_of context.now) at (option_map type_of from.entry)).ty }
    ensures first { result.first ≡ first_place (spec_steps (map judged_step steps.now) (context_of context.now) at (option_map type_of from.entry)).faults }
{
    let mut ty = from;
    let mut first = None;
    for step in steps {
        let next = judge_step(context, step, at, ty);
        ty = next.ty;
        first = earlier(first, next.first);
    }
    Judged { ty, first }
}

#[cycle(judging)]
fn judge_step<'a>(
    context: &Context<'_, 'a>,
    step: &'a CStep,
    at: Place,
    from: Option<Ty<'a>>,
) -> Judged<'a>
    ensures ty { option_map type_of result.ty ≡ (judged_step step.now (context_of context.now) at (option_map type_of from.entry)).ty }
    ensures first { result.first ≡ first_place (judged_step step.now (context_of context.now) at (option_map type_of from.entry)).faults }
{
    match &step.index {
        Some(index) => {
            let index = judge_index(context, index, at);
            stepped(context, from, &step.member, Some(index), at)
        }
        None => stepped(context, from, &step.member, None, at),
    }
}

/// A step into a type, of which perhaps nothing is known.
fn stepped<'a>(
    context: &Context<'_, 'a>,
    from: Option<Ty<'a>>,
    name: &str,
    index: Option<JudgedIndex>,
    at: Place,
) -> Judged<'a>
    ensures ty { option_map type_of result.ty ≡
        (judge_into (context_of context.now) name.now (option_map (λ i. i.length) index) at (option_map type_of from.entry)).ty }
    ensures first { result.first ≡ earlier_of (option_and_then (λ i. i.first) index)
        (first_place (judge_into (context_of context.now) name.now (option_map (λ i. i.length) index) at (option_map type_of from.entry)).faults) }
{
    let length = index.map(|index| index.length);
    let inside = match index {
        Some(index) => index.first,
        None => None,
    };
    let into = match from {
        Some(ty) => judge_found(context.member(ty, name), length, at),
        None => Judged {
            ty: None,
            first: None,
        },
    };
    Judged {
        ty: into.ty,
        first: earlier(inside, into.first),
    }
}

/// A member that is used with an index for a length, or with none.
fn judge_found(member: Option<&CMember>, length: Option<u32>, at: Place) -> Judged<'_>
    ensures ty { option_map type_of result.ty ≡ (judge_member (option_map (λ m. m.now) member.entry) length at).ty }
    ensures first { result.first ≡ first_place (judge_member (option_map (λ m. m.now) member.entry) length at).faults }
{
    let Some(member) = member else {
        return Judged {
            ty: None,
            first: Some(at),
        };
    };
    match (member.length, length) {
        (None, None) => Judged {
            ty: Some(Ty::of(&member.ty)),
            first: None,
        },
        (Some(wanted), Some(given)) => Judged {
            ty: Some(Ty::of(&member.ty)),
            first: unless(wanted == given, at),
        },
        _ => Judged {
            ty: None,
            first: Some(at),
        },
    }
}

#[cycle(judging)]
fn judge_index<'a>(context: &Context<'_, 'a>, index: &'a CIndex, at: Place) -> JudgedIndex
    ensures length { result.length ≡ (judged_index index.now (context_of context.now) at).length }
    ensures first { result.first ≡ first_place (judged_index index.now (context_of context.now) at).faults }
{
    let inside = judge_expr(context, &index.at);
    let fits = match inside.ty {
        Some(ty) => indexes(index.signed, ty),
        None => true,
    };
    JudgedIndex {
        length: index.length,
        first: earlier(inside.first, unless(fits, at)),
    }
}

#[cycle(judging)]
fn judge_arg<'a>(context: &Context<'_, 'a>, arg: &'a CArg, at: Place) -> JudgedArg<'a>
    ensures address { result.address ≡ (judged_arg arg.now (context_of context.now) at).address }
    ensures through { result.through ≡ (judged_arg arg.now (context_of context.now) at).through }
    ensures ty { option_map type_of result.ty ≡ (judged_arg arg.now (context_of context.now) at).ty }
    ensures first { result.first ≡ first_place (judged_arg arg.now (context_of context.now) at).faults }
{
    match arg {
        CArg::Value(value) => {
            let value = judge_expr(context, value);
            JudgedArg {
                address: false,
                through: false,
                ty: value.ty,
                first: value.first,
            }
        }
        CArg::Address(place) => {
            let place = judge_place(context, place, at);
            JudgedArg {
                address: true,
                through: place.through,
                ty: place.ty,
                first: place.first,
            }
        }
    }
}

/// A call in the expression or statement at a place of the text.
#[cycle(judging)]
pub fn judge_call<'a>(context: &Context<'_, 'a>, call: &'a CCall, at: Place) -> JudgedCall
    ensures result { result.result ≡ known_result (judged_call call.now (context_of context.now) at).signature }
    ensures first { result.first ≡ first_place (judged_call call.now (context_of context.now) at).faults }
{
    let callee = context.callee(&call.name);
    let args = judge_args(context, &callee, &call.args, at);
    let result = result_known(&callee);
    let handed = both(
        context.is_read_only,
        both(is_without_result(result), args.handed),
    );
    let misfit = earlier(unless(args.fit, at), unless(!handed, at));
    JudgedCall {
        result,
        first: earlier(unless(is_known(&callee), at), earlier(args.first, misfit)),
    }
}

/// The result of a function that is known.
fn result_known(callee: &Option<Callee<'_>>) -> Option<Option<Scalar>>
    ensures { result ≡ known_result (option_map signature_for callee.now) }
{
    match callee {
        Some(callee) => Some(callee.result()),
        None => None,
    }
}

fn is_known(callee: &Option<Callee<'_>>) -> bool
    ensures { result ≡ is_some (option_map signature_for callee.now) }
{
    callee.is_some()
}

/// Whether a function is known to have no result.
fn is_without_result(known: Option<Option<Scalar>>) -> bool
    ensures { result ≡ is_void known }
{
    matches!(known, Some(None))
}

#[cycle(judging)]
fn judge_args<'a>(
    context: &Context<'_, 'a>,
    callee: &Option<Callee<'a>>,
    args: &'a [CArg],
    at: Place,
) -> JudgedArgs
    ensures fit { result.fit ≡ fit_args (option_map signature_for callee.now) (judged_args args.now (context_of context.now) at) }
    ensures handed { result.handed ≡ any_of (map is_handed (judged_args args.now (context_of context.now) at)) }
    ensures first { result.first ≡ first_place (joined (map (λ a. a.faults) (judged_args args.now (context_of context.now) at))) }
{
    let mut fit = true;
    let mut handed = false;
    let mut first = None;
    for (k, arg) in args.iter().enumerate() {
        let arg = judge_arg(context, arg, at);
        fit = both(fit, fits_at(callee, k, &arg));
        handed = either(handed, both(arg.address, arg.through));
        first = earlier(first, arg.first);
    }
    JudgedArgs {
        fit: both(fit, wants_at_most(callee, args.len())),
        handed,
        first,
    }
}

/// Whether an argument fits the parameter of its number; where nothing is known of the function, it does.
fn fits_at(callee: &Option<Callee<'_>>, k: usize, arg: &JudgedArg<'_>) -> bool
    ensures { result ≡ fits_nth (option_map signature_for callee.now) k arg.now.address (option_map type_of arg.now.ty) }
{
    let Some(callee) = callee else {
        return true;
    };
    let Some(param) = callee.param(k) else {
        return false;
    };
    let fits = match arg.ty {
        Some(ty) => fits_param(callee.widens(), param.ty, ty),
        None => true,
    };
    param.pointer == arg.address && fits
}

/// Whether a function wants no more arguments than these.
fn wants_at_most(callee: &Option<Callee<'_>>, count: usize) -> bool
    ensures { result ≡ wants_up_to (option_map signature_for callee.now) count }
{
    match callee {
        Some(callee) => callee.arity() <= count,
        None => true,
    }
}
