//! Rule Alias: an output of a call or `run` that overlaps an earlier output or an aggregate input, and a target that
//! overlaps an output.
#![tactic(auto, using(crate::proofs::FirstLemmas::firsts))]

ghost use Rattle.std.specs.Prelude.{◌≡◌, ◌++◌, [], is_none, map, IfOk, OnOk};
ghost use Rattle.bl_conflict.specs.inner.Failures.{added, alias_failures, aliases_of_arm, aliases_of_branch, least_by, marked_read, of_alias};
ghost use Rattle.bl_conflict.specs.inner.Failures.{place_overlapping};
ghost use Rattle.bl_effects.specs.Rules.{aliased_with, aliases_in, aliases_of, marked_input, marked_inputs, outputs_aliased, target_aliased};
ghost use Rattle.bl_tree.specs.Reduce.{joined};
ghost use Rattle.bl_tree.specs.Types.{scalar_in};

use crate::marks::{marked_path, marked_paths, overlaps};
use bl_effects::{Marked, static_of};
use bl_tree::rule::lesser;
use bl_tree::tree::{Arm, Branch, Expr, ExprKind, Path, Stmt, StmtKind, Ty, Unit};
use bl_tree::{Failure, Further, List, NoMemory, Place, Rule};
use std::alloc::Global;

/// The first so far, or the first failure of a call or `run`.
pub fn first(
    alloc: Global,
    units: &[Unit],
    best: Option<Failure>,
) -> Result<Option<Failure>, NoMemory>
    ensures { IfOk result (λ found. found ≡ least_by of_alias best (alias_failures units.now)) }
{
    let mut best = best;
    for unit in units {
        best = block(alloc, &unit.body, best)?;
    }
    Ok(best)
}

#[cycle(calls)]
fn block(alloc: Global, body: &[Stmt], best: Option<Failure>) -> Result<Option<Failure>, NoMemory>
    ensures { IfOk result (λ found. found ≡ least_by of_alias best (joined (map aliases_in body.now))) }
{
    let mut best = best;
    for s in body {
        best = statement(alloc, s, best)?;
    }
    Ok(best)
}

#[cycle(calls)]
fn statement(alloc: Global, s: &Stmt, best: Option<Failure>) -> Result<Option<Failure>, NoMemory>
    ensures { IfOk result (λ found. found ≡ least_by of_alias best (aliases_in s.now)) }
{
    match &s.what {
        StmtKind::Declare(_, _)
        | StmtKind::Assign(_, _)
        | StmtKind::Await(_)
        | StmtKind::Return(_) => Ok(best),
        StmtKind::Call(_, inputs, outputs) => call(alloc, &None, inputs, outputs, best),
        StmtKind::Run(target, _, inputs, outputs) => call(alloc, target, inputs, outputs, best),
        StmtKind::If(all, other) => {
            let best = arms(alloc, all, best)?;
            block(alloc, other, best)
        }
        StmtKind::Cobegin(all) => branches(alloc, all, best),
        StmtKind::When(_, _, body)
        | StmtKind::Repeat(body)
        | StmtKind::Until(body, _)
        | StmtKind::While(_, body) => block(alloc, body, best),
    }
}

#[cycle(calls)]
fn arms(alloc: Global, all: &[Arm], best: Option<Failure>) -> Result<Option<Failure>, NoMemory>
    ensures { IfOk result (λ found. found ≡ least_by of_alias best (joined (map aliases_of_arm all.now))) }
{
    let mut best = best;
    for arm in all {
        best = block(alloc, &arm.body, best)?;
    }
    Ok(best)
}

#[cycle(calls)]
fn branches(
    alloc: Global,
    all: &[Branch],
    best: Option<Failure>,
) -> Result<Option<Failure>, NoMemory>
    ensures { IfOk result (λ found. found ≡ least_by of_alias best (joined (map aliases_of_branch all.now))) }
{
    let mut best = best;
    for branch in all {
        best = block(alloc, &branch.body, best)?;
    }
    Ok(best)
}

/// The failures of one call or `run`.
fn call(
    alloc: Global,
    target: &Option<Path>,
    inputs: &[Expr],
    outputs: &[Path],
    best: Option<Failure>,
) -> Result<Option<Failure>, NoMemory>
    ensures { IfOk result (λ found. found ≡ least_by of_alias best (aliases_of target.now inputs.now outputs.now)) }
{
    let outputs = marked_paths(alloc, outputs)?;
    let inputs = marked_inputs(alloc, inputs)?;
    let best = target_aliased(alloc, &outputs, target, best)?;
    Ok(outputs_aliased(&inputs, &outputs, best))
}

/// The aggregate inputs, which are paths, at their places.
fn marked_inputs(alloc: Global, inputs: &[Expr]) -> Result<List<Marked>, NoMemory>
    ensures { IfOk result (λ marked. marked ≡ marked_inputs inputs.now) }
{
    let mut marked = List::new(alloc);
    for e in inputs {
        add_input(alloc, e, &mut marked)?;
    }
    Ok(marked)
}

fn add_input(alloc: Global, e: &Expr, marked: &mut List<Marked>) -> Result<(), NoMemory>
    ensures { OnOk result (marked.new ≡ marked.old ++ marked_input e.now) }
{
    match &e.what {
        ExprKind::Read(path) => add_aggregate(alloc, e.place, path, marked),
        _ => Ok(()),
    }
}

fn add_aggregate(
    alloc: Global,
    at: Place,
    path: &Path,
    marked: &mut List<Marked>,
) -> Result<(), NoMemory>
    ensures { OnOk result (marked.new ≡ marked.old ++ marked_read at path.now) }
{
    if is_aggregate(&path.ty) {
        marked.push(Marked {
            place: at,
            path: static_of(alloc, path)?,
        })?;
    }
    Ok(())
}

fn is_aggregate(ty: &Ty) -> bool
    ensures { result ≡ is_none (scalar_in ty.now) }
{
    match ty {
        Ty::Scalar(_) => false,
        Ty::Struct(_) | Ty::Array(_, _) => true,
    }
}

/// The place of the first of the others that overlaps the one.
fn first_overlapping(others: &[Marked], one: &Marked) -> Option<Place>
    ensures { result ≡ place_overlapping others.now one.now }
{
    for other in others {
        if overlaps(&one.path, &other.path) {
            return Some(other.place);
        }
    }
    None
}

/// The place of the first of the others, and then of more, that overlaps the one.
fn first_of_all(others: &[Marked], more: &[Marked], one: &Marked) -> Option<Place>
    ensures { result ≡ place_overlapping (others.now ++ more.now) one.now }
{
    match first_overlapping(others, one) {
        Some(place) => Some(place),
        None => first_overlapping(more, one),
    }
}

fn add(best: Option<Failure>, at: Place, also: Option<Place>) -> Option<Failure>
    ensures { result ≡ added best at also }
{
    match also {
        Some(also) => lesser(
            best,
            Failure {
                rule: Rule::Alias,
                at,
                further: Further::One(also),
            },
        ),
        None => best,
    }
}

/// One that is compared with some, and then with more.
fn aliased_with(
    others: &[Marked],
    more: &[Marked],
    one: &Marked,
    best: Option<Failure>,
) -> Option<Failure>
    ensures { result ≡ least_by of_alias best (aliased_with (others.now ++ more.now) one.now) }
{
    add(best, one.place, first_of_all(others, more, one))
}

fn target_aliased(
    alloc: Global,
    outputs: &[Marked],
    target: &Option<Path>,
    best: Option<Failure>,
) -> Result<Option<Failure>, NoMemory>
    ensures { IfOk result (λ found. found ≡ least_by of_alias best (target_aliased outputs.now target.now)) }
{
    match target {
        Some(path) => {
            let one = marked_path(alloc, path)?;
            Ok(aliased_with(outputs, &[], &one, best))
        }
        None => Ok(best),
    }
}

/// Each output is compared with those before it, and then with the inputs.
fn outputs_aliased(inputs: &[Marked], outputs: &[Marked], best: Option<Failure>) -> Option<Failure>
    ensures { result ≡ least_by of_alias best (outputs_aliased inputs.now [] outputs.now) }
{
    let mut best = best;
    for k in 0..outputs.len() {
        best = aliased_with(&outputs[..k], inputs, &outputs[k], best);
    }
    best
}
