//! Expressions and targets with their types.
#![tactic(auto, using(crate::proofs::NoteLemmas::notes))]

ghost use Rattle.std.specs.Prelude.{◌≡◌, IfOk, OnOk, Some, is_some, map, nat_eq, option_and_then, option_map, slice_get};
ghost use Rattle.bl_tree.specs.declared.scalar.Scalar.TheVariants.{Bool as OfBool};
ghost use Rattle.bl_tree.specs.Numbers.{number_of};
ghost use Rattle.bl_tree.specs.Types.{scalar};
ghost use Rattle.bl_types.specs.Expressions.{all_failures, all_made, call_form, call_judged, fitted, fitting, in_context, judged, miscounted, misnamed};
ghost use Rattle.bl_types.specs.Expressions.{previous_fits, previous_formed, reading, step_of, stepped, targeted, written_number};
ghost use Rattle.bl_types.specs.Failures.{noted};
ghost use Rattle.bl_types.specs.Settled.{literal};
ghost use Rattle.bl_types.specs.declared.form.Form.TheVariants.{Of};

use crate::environment::{Environment, Variable};
use crate::failure::Notes;
use crate::form::{Form, Found, Reached, Step};
use crate::operators::{fitting, of_cast, of_one, of_two, unwanted};
use crate::settle::{INT32, literal};
use crate::slices::{but_first, first_type, inputs_of};
use crate::target::{
    constant_found, path_found, to_element, to_field, type_of_constant, type_of_variable,
};
use crate::types::{copy_of, scalar_in};
use bl_names_tree::expr::{NamedExpr, NamedExprKind, NamedPart, NamedTarget, Root};
use bl_tree::slices::element;
use bl_tree::tree::{Expr, ExprKind, Role, Ty, Unit, UnitKind, Var};
use bl_tree::{List, NoMemory, Place, Rule, Scalar};
use std::alloc::Global;

/// The kept value of every number that is greater than all types have.
const GREATEST: u128 = 0x1_0000_0000_0000_0000;

fn written_number(minus: bool, n: u128) -> i128
    ensures { result ≡ written_number minus n }
{
    let kept = n.min(GREATEST) as i128;
    if minus { -kept } else { kept }
}

fn truth(at: Place, truth: bool) -> Form
    ensures { result ≡ Of (scalar OfBool) (literal at (number_of truth) OfBool) }
{
    let n = if truth { 1 } else { 0 };
    Form::Of(Ty::Scalar(Scalar::Bool), literal(at, n, Scalar::Bool))
}

/// Whether the environment keeps the variable's previous value: it is a scalar `var` of an activity.
fn previous_fits(kind: UnitKind, role: Role, ty: &Ty) -> bool
    ensures { result ≡ previous_fits kind role ty.now }
{
    matches!(kind, UnitKind::Activity) && matches!(role, Role::Variable) && scalar_in(ty).is_some()
}

fn previous_of(
    alloc: Global,
    at: Place,
    k: u32,
    var: &Variable,
    kind: UnitKind,
    notes: &mut Notes,
) -> Result<Form, NoMemory>
    ensures form { IfOk result (λ form. form ≡ (previous_formed kind at k (Some var.now)).form) }
    ensures notes { OnOk result (notes.new ≡ noted notes.old (previous_formed kind at k (Some var.now)).failures) }
{
    match &var.ty {
        Some(ty) => {
            if !previous_fits(kind, var.role, ty) {
                notes.fail(Rule::Prev, at);
            }
            let read = Expr {
                place: at,
                what: ExprKind::Prev(k),
            };
            Ok(Form::Of(copy_of(alloc, ty)?, read))
        }
        None => Ok(Form::Failing),
    }
}

fn previous(
    alloc: Global,
    at: Place,
    k: u32,
    env: &Environment,
    notes: &mut Notes,
) -> Result<Form, NoMemory>
    ensures form { IfOk result (λ form. form ≡ (previous_formed env.now.kind at k (slice_get env.now.vars k)).form) }
    ensures notes { OnOk result (notes.new ≡ noted notes.old (previous_formed env.now.kind at k (slice_get env.now.vars k)).failures) }
{
    match element(&env.vars, k as usize) {
        Some(var) => previous_of(alloc, at, k, var, env.kind, notes),
        None => Ok(Form::Failing),
    }
}

/// What is read at the place.
fn reading(alloc: Global, at: Place, found: Found) -> Result<Form, NoMemory>
    ensures { IfOk result (λ form. form ≡ reading at found) }
{
    match found {
        Found::Nothing => Ok(Form::Failing),
        Found::Constant(s, n) => Ok(Form::Of(Ty::Scalar(s), literal(at, n, s))),
        Found::Place(path) => {
            let ty = copy_of(alloc, &path.ty)?;
            let read = Expr {
                place: at,
                what: ExprKind::Read(path),
            };
            Ok(Form::Of(ty, read))
        }
    }
}

/// An expression of which a type or nothing is wanted.
fn fitted(
    alloc: Global,
    wanted: Option<&Ty>,
    at: Place,
    form: Form,
    notes: &mut Notes,
) -> Result<Option<Expr>, NoMemory>
    ensures made { IfOk result (λ made. made ≡ (fitting (option_map (λ ty. ty.now) wanted.entry) at form).made) }
    ensures notes { OnOk result (notes.new ≡ noted notes.old (fitting (option_map (λ ty. ty.now) wanted.entry) at form).failures) }
{
    match wanted {
        Some(ty) => fitting(alloc, ty, at, form, notes),
        None => unwanted(alloc, form, notes),
    }
}

/// A unit has another number of inputs or outputs than a call gives it.
pub fn miscounted(at: Place, inputs: usize, outputs: usize, callee: &Unit, notes: &mut Notes)
    ensures { notes.new ≡ noted notes.old (miscounted at inputs outputs callee.now) }
{
    if inputs != callee.inputs as usize || outputs != callee.outputs as usize {
        notes.fail(Rule::Arity, at);
    }
}

/// A call in an expression names a function that has outputs or no result, or takes another number of inputs.
fn misnamed(at: Place, inputs: usize, callee: Option<&Unit>, notes: &mut Notes)
    ensures { notes.new ≡ noted notes.old (misnamed at inputs (option_map (λ unit. unit.now) callee.entry)) }
{
    if let Some(callee) = callee {
        miscounted(at, inputs, 0, callee, notes);
        if callee.result.is_none() {
            notes.fail(Rule::Return, at);
        }
    }
}

fn result_of(callee: Option<&Unit>) -> Option<Scalar>
    ensures { result ≡ option_and_then (λ unit. unit.result) (option_map (λ unit. unit.now) callee.entry) }
{
    match callee {
        Some(callee) => callee.result,
        None => None,
    }
}

fn call_form(at: Place, f: u32, inputs: List<Expr>, complete: bool, outcome: Option<Scalar>) -> Form
    ensures { result ≡ call_form at f inputs complete outcome }
{
    match outcome {
        Some(s) => {
            if complete {
                let call = Expr {
                    place: at,
                    what: ExprKind::Call(f, inputs),
                };
                Form::Of(Ty::Scalar(s), call)
            } else {
                Form::Failing
            }
        }
        None => Form::Failing,
    }
}

// ---- expressions

/// What is known of an expression by itself.
#[cycle(expressions)]
pub fn judge(
    alloc: Global,
    e: &NamedExpr,
    env: &Environment,
    notes: &mut Notes,
) -> Result<Form, NoMemory>
    ensures form { IfOk result (λ form. form ≡ (judged env.now e.now).form) }
    ensures notes { OnOk result (notes.new ≡ noted notes.old (judged env.now e.now).failures) }
{
    match &e.what {
        NamedExprKind::Number(minus, n) => {
            let n = written_number(*minus, *n);
            Ok(Form::Open(literal(e.place, n, INT32)))
        }
        NamedExprKind::Truth(is) => Ok(truth(e.place, *is)),
        NamedExprKind::Read(place) => {
            let found = target(alloc, place, env, notes)?;
            reading(alloc, e.place, found)
        }
        NamedExprKind::Prev(k) => previous(alloc, e.place, *k, env, notes),
        NamedExprKind::One(op, a) => {
            let a = judge(alloc, a, env, notes)?;
            of_one(alloc, e.place, *op, a, notes)
        }
        NamedExprKind::Two(op, a, b) => {
            let a = judge(alloc, a, env, notes)?;
            let b = judge(alloc, b, env, notes)?;
            of_two(alloc, e.place, *op, a, b, notes)
        }
        NamedExprKind::Cast(target, a) => {
            let a = judge(alloc, a, env, notes)?;
            of_cast(alloc, e.place, *target, a, notes)
        }
        NamedExprKind::Call(name, f, inputs) => call(alloc, e.place, *name, *f, inputs, env, notes),
    }
}

#[cycle(expressions)]
fn call(
    alloc: Global,
    at: Place,
    name: Place,
    f: u32,
    inputs: &[NamedExpr],
    env: &Environment,
    notes: &mut Notes,
) -> Result<Form, NoMemory>
    ensures form { IfOk result (λ form. form ≡ (call_judged env.now at name f inputs.now).form) }
    ensures notes { OnOk result (notes.new ≡ noted notes.old (call_judged env.now at name f inputs.now).failures) }
{
    let callee = element(&env.units, f as usize);
    let made = arguments(alloc, inputs, inputs_of(callee), env, notes)?;
    let complete = made.len() == inputs.len();
    misnamed(name, inputs.len(), callee, notes);
    Ok(call_form(at, f, made, complete, result_of(callee)))
}

/// An expression, of which a type or nothing is wanted.
#[cycle(expressions)]
pub fn in_context(
    alloc: Global,
    wanted: Option<&Ty>,
    e: &NamedExpr,
    env: &Environment,
    notes: &mut Notes,
) -> Result<Option<Expr>, NoMemory>
    ensures made { IfOk result (λ made. made ≡ (in_context (option_map (λ ty. ty.now) wanted.entry) (judged env.now e.now)).made) }
    ensures notes { OnOk result (notes.new ≡ noted notes.old (in_context (option_map (λ ty. ty.now) wanted.entry) (judged env.now e.now)).failures) }
{
    let form = judge(alloc, e, env, notes)?;
    fitted(alloc, wanted, e.place, form, notes)
}

/// The arguments that have types that fit.
#[cycle(expressions)]
pub fn arguments(
    alloc: Global,
    all: &[NamedExpr],
    params: &[Var],
    env: &Environment,
    notes: &mut Notes,
) -> Result<List<Expr>, NoMemory>
    ensures made { IfOk result (λ made. made ≡ all_made (fitted (map (judged env.now) all.now) params.now)) }
    ensures notes { OnOk result (notes.new ≡ noted notes.old (all_failures (fitted (map (judged env.now) all.now) params.now))) }
{
    let mut params = params;
    let mut made = List::new(alloc);
    for e in all {
        if let Some(argument) = in_context(alloc, first_type(params), e, env, notes)? {
            made.push(argument)?;
        }
        params = but_first(params);
    }
    Ok(made)
}

/// What a target leads to.
#[cycle(expressions)]
pub fn target(
    alloc: Global,
    target: &NamedTarget,
    env: &Environment,
    notes: &mut Notes,
) -> Result<Found, NoMemory>
    ensures found { IfOk result (λ found. found ≡ (targeted env.now target.now).found) }
    ensures notes { OnOk result (notes.new ≡ noted notes.old (targeted env.now target.now).failures) }
{
    match target.root {
        Root::Variable(k) => {
            let ty = type_of_variable(alloc, element(&env.vars, k as usize))?;
            let reached = steps(alloc, &target.parts, ty, env, notes)?;
            Ok(path_found(target.place, k, reached))
        }
        Root::Constant(k) => {
            let constant = element(&env.constants, k as usize);
            let reached = steps(alloc, &target.parts, type_of_constant(constant), env, notes)?;
            Ok(constant_found(constant, reached))
        }
    }
}

/// How far the parts lead from what has the type.
#[cycle(expressions)]
fn steps(
    alloc: Global,
    all: &[NamedPart],
    ty: Option<Ty>,
    env: &Environment,
    notes: &mut Notes,
) -> Result<Reached, NoMemory>
    ensures ty { IfOk result (λ reached. reached.ty ≡ (stepped (map (step_of env.now) all.now) ty).ty) }
    ensures parts { IfOk result (λ reached. reached.parts ≡ (stepped (map (step_of env.now) all.now) ty).parts) }
    ensures notes { OnOk result (notes.new ≡ noted notes.old (stepped (map (step_of env.now) all.now) ty).failures) }
{
    let mut ty = ty;
    let mut parts = List::new(alloc);
    for part in all {
        let next = step(alloc, part, ty, env, notes)?;
        let Step {
            ty: there,
            part: made,
        } = next;
        ty = there;
        if let Some(made) = made {
            parts.push(made)?;
        }
    }
    Ok(Reached { ty, parts })
}

#[cycle(expressions)]
fn step(
    alloc: Global,
    part: &NamedPart,
    ty: Option<Ty>,
    env: &Environment,
    notes: &mut Notes,
) -> Result<Step, NoMemory>
    ensures ty { IfOk result (λ step. step.ty ≡ (step_of env.now part.now ty).ty) }
    ensures part { IfOk result (λ step. step.part ≡ (step_of env.now part.now ty).part) }
    ensures notes { OnOk result (notes.new ≡ noted notes.old (step_of env.now part.now ty).failures) }
{
    match part {
        NamedPart::Field(name) => to_field(alloc, &env.structs, name, ty, notes),
        NamedPart::Index(e) => {
            let form = judge(alloc, e, env, notes)?;
            to_element(alloc, e.place, form, ty, notes)
        }
    }
}
