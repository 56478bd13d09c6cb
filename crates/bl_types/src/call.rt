//! Call statements and runs.
#![tactic(auto, using(crate::proofs::NoteLemmas::notes))]

ghost use Rattle.std.specs.Prelude.{◌≡◌, ◌++◌, IfOk, None, OnOk, Some, if◌then◌else◌, map, option_and_then, option_map, slice_get};
ghost use Rattle.bl_tree.specs.declared.tree.StmtKind.TheVariants.{Call as ACall, Run as ARun};
ghost use Rattle.bl_tree.specs.Typing.{may_change};
ghost use Rattle.bl_types.specs.Expressions.{stepped, to_field};
ghost use Rattle.bl_types.specs.Failures.{noted};
ghost use Rattle.bl_types.specs.Statements.{all_lent, arguments, call_walked, counted, has_result, immutable_variable, lent, lent_as, misplaced};
ghost use Rattle.bl_types.specs.Statements.{no_result, paths_failures, paths_made, result_type, run_target, run_walked, targeted_path};

use crate::environment::Environment;
use crate::expr::{arguments, miscounted};
use crate::failure::Notes;
use crate::form::{Found, Reached, Step};
use crate::slices::{but_first, first_type, inputs_of, keep, outputs_of};
use crate::target::{path_found, to_field, type_of_variable};
use crate::types::same_type;
use bl_names_tree::expr::NamedExpr;
use bl_names_tree::stmt::NamedPath;
use bl_parse_tree::name::Name;
use bl_tree::slices::element;
use bl_tree::tree::{Expr, Path, Role, StmtKind, Ty, Unit, UnitKind, Var};
use bl_tree::{List, NoMemory, Place, Rule};
use std::alloc::Global;

/// How far fields lead from what has the type.
fn fields(
    alloc: Global,
    all: &[Name],
    ty: Option<Ty>,
    env: &Environment,
    notes: &mut Notes,
) -> Result<Reached, NoMemory>
    ensures ty { IfOk result (λ reached. reached.ty ≡ (stepped (map (to_field env.now.structs) all.now) ty).ty) }
    ensures parts { IfOk result (λ reached. reached.parts ≡ (stepped (map (to_field env.now.structs) all.now) ty).parts) }
    ensures notes { OnOk result (notes.new ≡ noted notes.old (stepped (map (to_field env.now.structs) all.now) ty).failures) }
{
    let mut ty = ty;
    let mut parts = List::new(alloc);
    for name in all {
        let next = to_field(alloc, &env.structs, name, ty, notes)?;
        let Step {
            ty: there,
            part: made,
        } = next;
        ty = there;
        if let Some(made) = made {
            parts.push(made)?;
        }
    }
    Ok(Reached { ty, parts })
}

fn target(
    alloc: Global,
    path: &NamedPath,
    env: &Environment,
    notes: &mut Notes,
) -> Result<Found, NoMemory>
    ensures found { IfOk result (λ found. found ≡ (targeted_path env.now path.now).found) }
    ensures notes { OnOk result (notes.new ≡ noted notes.old (targeted_path env.now path.now).failures) }
{
    let ty = type_of_variable(alloc, element(&env.vars, path.root as usize))?;
    let reached = fields(alloc, &path.fields, ty, env, notes)?;
    Ok(path_found(path.place, path.root, reached))
}

fn lent_as(wanted: Option<&Ty>, at: Place, found: Found, notes: &mut Notes) -> Option<Path>
    ensures made { result ≡ (lent_as (option_map (λ ty. ty.now) wanted.entry) at found).made }
    ensures notes { notes.new ≡ noted notes.old (lent_as (option_map (λ ty. ty.now) wanted.entry) at found).failures }
{
    let Found::Place(path) = found else {
        return None;
    };
    if let Some(ty) = wanted {
        if !same_type(ty, &path.ty) {
            notes.fail(Rule::Type, at);
            return None;
        }
    }
    Some(path)
}

/// `await`, `run`, `cobegin` and `when` stand in no function.
pub fn placed(at: Place, kind: UnitKind, notes: &mut Notes)
    ensures { notes.new ≡ noted notes.old (misplaced kind at) }
{
    match kind {
        UnitKind::Function => notes.fail(Rule::Where, at),
        UnitKind::Activity => {}
    }
}

/// Whether a body may write the variable: it is declared by `var`, or an output.
fn may_change(role: Role) -> bool
    ensures { result ≡ may_change role }
{
    matches!(role, Role::Output | Role::Variable)
}

/// The root of what is changed is a `var` or an output.
pub fn changes(at: Place, root: u32, env: &Environment, notes: &mut Notes)
    ensures { notes.new ≡ noted notes.old (immutable_variable at (slice_get env.now.vars root)) }
{
    if let Some(var) = element(&env.vars, root as usize) {
        if !may_change(var.role) {
            notes.pair(Rule::Immutable, at, var.place);
        }
    }
}

/// A path that stands for an output or takes a result.
fn lent(
    alloc: Global,
    wanted: Option<&Ty>,
    path: &NamedPath,
    env: &Environment,
    notes: &mut Notes,
) -> Result<Option<Path>, NoMemory>
    ensures made { IfOk result (λ made. made ≡ (lent env.now (option_map (λ ty. ty.now) wanted.entry) path.now).made) }
    ensures notes { OnOk result (notes.new ≡ noted notes.old (lent env.now (option_map (λ ty. ty.now) wanted.entry) path.now).failures) }
{
    let found = target(alloc, path, env, notes)?;
    let made = lent_as(wanted, path.place, found, notes);
    changes(path.place, path.root, env, notes);
    Ok(made)
}

/// The outputs that have types that fit.
fn all_lent(
    alloc: Global,
    all: &[NamedPath],
    params: &[Var],
    env: &Environment,
    notes: &mut Notes,
) -> Result<List<Path>, NoMemory>
    ensures made { IfOk result (λ made. made ≡ paths_made (all_lent env.now all.now params.now)) }
    ensures notes { OnOk result (notes.new ≡ noted notes.old (paths_failures (all_lent env.now all.now params.now))) }
{
    let mut params = params;
    let mut made = List::new(alloc);
    for path in all {
        let output = lent(alloc, first_type(params), path, env, notes)?;
        keep(&mut made, output)?;
        params = but_first(params);
    }
    Ok(made)
}

/// The arguments of a call or run that have types that fit.
#[derive(Drop)]
struct Arguments {
    inputs: List<Expr>,
    outputs: List<Path>,
    /// Whether these are all.
    complete: bool,
}

fn counted(at: Place, inputs: usize, outputs: usize, callee: Option<&Unit>, notes: &mut Notes)
    ensures { notes.new ≡ noted notes.old (counted at inputs outputs (option_map (λ unit. unit.now) callee.entry)) }
{
    if let Some(callee) = callee {
        miscounted(at, inputs, outputs, callee, notes);
    }
}

/// The arguments for the unit at the position. The name of the call stands at the place.
fn given(
    alloc: Global,
    at: Place,
    f: u32,
    inputs: &[NamedExpr],
    outputs: &[NamedPath],
    env: &Environment,
    notes: &mut Notes,
) -> Result<Arguments, NoMemory>
    ensures inputs { IfOk result (λ given. given.inputs ≡ (arguments env.now at f inputs.now outputs.now).inputs) }
    ensures outputs { IfOk result (λ given. given.outputs ≡ (arguments env.now at f inputs.now outputs.now).outputs) }
    ensures complete { IfOk result (λ given. given.complete ≡ (arguments env.now at f inputs.now outputs.now).complete) }
    ensures notes { OnOk result (notes.new ≡ noted notes.old (arguments env.now at f inputs.now outputs.now).failures) }
{
    let callee = element(&env.units, f as usize);
    let made = arguments(alloc, inputs, inputs_of(callee), env, notes)?;
    let lent = all_lent(alloc, outputs, outputs_of(callee), env, notes)?;
    counted(at, inputs.len(), outputs.len(), callee, notes);
    let complete = (made.len() == inputs.len()) & (lent.len() == outputs.len());
    Ok(Arguments {
        inputs: made,
        outputs: lent,
        complete,
    })
}

/// A call statement names a function with a result.
fn has_result(at: Place, callee: Option<&Unit>, notes: &mut Notes)
    ensures { notes.new ≡ noted notes.old (has_result at (option_map (λ unit. unit.now) callee.entry)) }
{
    if let Some(callee) = callee {
        if callee.result.is_some() {
            notes.fail(Rule::Return, at);
        }
    }
}

pub fn call(
    alloc: Global,
    at: Place,
    f: u32,
    inputs: &[NamedExpr],
    outputs: &[NamedPath],
    env: &Environment,
    notes: &mut Notes,
) -> Result<Option<StmtKind>, NoMemory>
    ensures made { IfOk result (λ made. made ≡ (call_walked at f (arguments env.now at f inputs.now outputs.now) env.now).made) }
    ensures notes { OnOk result (notes.new ≡ noted notes.old (call_walked at f (arguments env.now at f inputs.now outputs.now) env.now).failures) }
{
    let given = given(alloc, at, f, inputs, outputs, env, notes)?;
    has_result(at, element(&env.units, f as usize), notes);
    Ok(call_made(f, given))
}

fn call_made(f: u32, given: Arguments) -> Option<StmtKind>
    ensures { result ≡ if given.complete then Some (ACall f given.inputs given.outputs) else None }
{
    let Arguments {
        inputs,
        outputs,
        complete,
    } = given;
    if complete {
        Some(StmtKind::Call(f, inputs, outputs))
    } else {
        None
    }
}

fn result_type(callee: Option<&Unit>) -> Option<Ty>
    ensures { result ≡ result_type (option_map (λ unit. unit.now) callee.entry) }
{
    match callee {
        Some(callee) => match callee.result {
            Some(s) => Some(Ty::Scalar(s)),
            None => None,
        },
        None => None,
    }
}

/// A run with a target names an activity without a result.
fn no_result(at: Place, callee: Option<&Unit>, notes: &mut Notes)
    ensures { notes.new ≡ noted notes.old (no_result at (option_map (λ unit. unit.now) callee.entry)) }
{
    if let Some(callee) = callee {
        if callee.result.is_none() {
            notes.fail(Rule::Return, at);
        }
    }
}

/// The target of a run where one is written. `None` where it has no type that fits.
fn run_target(
    alloc: Global,
    place: &Option<NamedPath>,
    callee: Option<&Unit>,
    env: &Environment,
    notes: &mut Notes,
) -> Result<Option<Option<Path>>, NoMemory>
    ensures made { IfOk result (λ made. made ≡ (run_target env.now (option_map (λ unit. unit.now) callee.entry) place.now).made) }
    ensures notes { OnOk result (notes.new ≡ noted notes.old (run_target env.now (option_map (λ unit. unit.now) callee.entry) place.now).failures) }
{
    let Some(path) = place else {
        return Ok(Some(None));
    };
    let wanted = result_type(callee);
    let made = lent(alloc, wanted.as_ref(), path, env, notes)?;
    no_result(path.place, callee, notes);
    match made {
        Some(path) => Ok(Some(Some(path))),
        None => Ok(None),
    }
}

/// A run, whose statement stands at the first place and the name of its activity at the second.
pub fn run(
    alloc: Global,
    at: Place,
    place: &Option<NamedPath>,
    name: Place,
    a: u32,
    inputs: &[NamedExpr],
    outputs: &[NamedPath],
    env: &Environment,
    notes: &mut Notes,
) -> Result<Option<StmtKind>, NoMemory>
    ensures made { IfOk result (λ made. made ≡ (run_walked at a (run_target env.now (slice_get env.now.units a) place.now)
        (arguments env.now name a inputs.now outputs.now) env.now).made) }
    ensures notes { OnOk result (notes.new ≡ noted notes.old
        (run_walked at a (run_target env.now (slice_get env.now.units a) place.now) (arguments env.now name a inputs.now outputs.now) env.now).failures) }
{
    placed(at, env.kind, notes);
    let target = run_target(alloc, place, element(&env.units, a as usize), env, notes)?;
    let given = given(alloc, name, a, inputs, outputs, env, notes)?;
    Ok(run_made(target, a, given))
}

fn run_made(target: Option<Option<Path>>, a: u32, given: Arguments) -> Option<StmtKind>
    ensures { result ≡ option_and_then (λ target. if given.complete then Some (ARun target a given.inputs given.outputs) else None) target }
{
    let Arguments {
        inputs,
        outputs,
        complete,
    } = given;
    match target {
        Some(target) => {
            if complete {
                Some(StmtKind::Run(target, a, inputs, outputs))
            } else {
                None
            }
        }
        None => None,
    }
}
