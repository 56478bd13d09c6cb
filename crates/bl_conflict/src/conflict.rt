//! Rule Conflict: acts in two branches of one `cobegin` that write overlapping static paths.
#![tactic(auto, using(crate::proofs::FirstLemmas::firsts))]

ghost use Rattle.std.specs.Prelude.{◌≡◌, ◌≤◌, ◌++◌, ◌∷◌, List as Elements, [], length, map, take, drop, IfOk, OnOk};
ghost use Rattle.bl_conflict.specs.inner.Failures.{all_clashes, clashes, clash_of, clashes_at, clashes_with, clashes_of_unit, conflict_failures};
ghost use Rattle.bl_conflict.specs.inner.Failures.{parallel_of_arm, parallel_of_branch, written};
ghost use Rattle.bl_effects.specs.declared.marked.Marked.{Marked as MarkedPath};
ghost use Rattle.bl_conflict.specs.inner.Roots.{Knows};
ghost use Rattle.bl_tree.specs.Effects.{target_static};
ghost use Rattle.bl_tree.specs.Rules.{first_of};
ghost use Rattle.bl_effects.specs.Rules.{Split, parallel_of, splits_after, together};
ghost use Rattle.bl_tree.specs.Static.{static_of};

use crate::marks::overlaps;
use crate::touched::Touched;
use bl_effects::{Marked, static_of};
use bl_tree::rule::lesser;
use bl_tree::tree::{Arm, Branch, Path, Stmt, StmtKind, Unit, Var};
use bl_tree::{Failure, Further, List, NoMemory, Place, Rule};
use std::alloc::Global;

/// The first so far, or the first pair of acts that conflict, with the declaration of a root that both write.
pub fn first(
    alloc: Global,
    units: &[Unit],
    best: Option<Failure>,
) -> Result<Option<Failure>, NoMemory>
    ensures { IfOk result (λ found. found ≡ first_of best (conflict_failures units.now)) }
{
    let mut best = best;
    for unit in units {
        best = judge(alloc, unit, best)?;
    }
    Ok(best)
}

fn judge(alloc: Global, unit: &Unit, best: Option<Failure>) -> Result<Option<Failure>, NoMemory>
    ensures { IfOk result (λ found. found ≡ first_of best (clashes_of_unit unit.now)) }
{
    let mut writes = List::new(alloc);
    block(alloc, &unit.vars, &unit.body, &mut writes, best)
}

/// Appends what the acts in the block write, and looks at each `cobegin` in it.
#[cycle(acts)]
fn block(
    alloc: Global,
    vars: &[Var],
    body: &[Stmt],
    writes: &mut List<Marked>,
    best: Option<Failure>,
) -> Result<Option<Failure>, NoMemory>
    ensures writes { OnOk result (writes.new ≡ writes.old ++ (together (map parallel_of body.now)).writes) }
    ensures best { IfOk result (λ found. found ≡ first_of best (all_clashes vars.now (together (map parallel_of body.now)).splits)) }
{
    let mut best = best;
    for s in body {
        best = statement(alloc, vars, s, writes, best)?;
    }
    Ok(best)
}

#[cycle(acts)]
fn statement(
    alloc: Global,
    vars: &[Var],
    s: &Stmt,
    writes: &mut List<Marked>,
    best: Option<Failure>,
) -> Result<Option<Failure>, NoMemory>
    ensures writes { OnOk result (writes.new ≡ writes.old ++ (parallel_of s.now).writes) }
    ensures best { IfOk result (λ found. found ≡ first_of best (all_clashes vars.now (parallel_of s.now).splits)) }
{
    match &s.what {
        StmtKind::Declare(_, _) | StmtKind::Await(_) | StmtKind::Return(_) => Ok(best),
        StmtKind::Assign(path, _) => {
            write(alloc, s.place, path, writes)?;
            Ok(best)
        }
        StmtKind::Call(_, _, outputs) => {
            write_all(alloc, s.place, outputs, writes)?;
            Ok(best)
        }
        StmtKind::Run(target, _, _, outputs) => {
            write_target(alloc, s.place, target, writes)?;
            write_all(alloc, s.place, outputs, writes)?;
            Ok(best)
        }
        StmtKind::If(all, other) => {
            let best = arms(alloc, vars, all, writes, best)?;
            block(alloc, vars, other, writes, best)
        }
        StmtKind::Cobegin(all) => branches(alloc, vars, all, writes, best),
        StmtKind::When(_, _, body)
        | StmtKind::Repeat(body)
        | StmtKind::Until(body, _)
        | StmtKind::While(_, body) => block(alloc, vars, body, writes, best),
    }
}

#[cycle(acts)]
fn arms(
    alloc: Global,
    vars: &[Var],
    all: &[Arm],
    writes: &mut List<Marked>,
    best: Option<Failure>,
) -> Result<Option<Failure>, NoMemory>
    ensures writes { OnOk result (writes.new ≡ writes.old ++ (together (map parallel_of_arm all.now)).writes) }
    ensures best { IfOk result (λ found. found ≡ first_of best (all_clashes vars.now (together (map parallel_of_arm all.now)).splits)) }
{
    let mut best = best;
    for arm in all {
        best = block(alloc, vars, &arm.body, writes, best)?;
    }
    Ok(best)
}

/// Each branch, and then its writes beside those of the branches before it.
#[cycle(acts)]
fn branches(
    alloc: Global,
    vars: &[Var],
    all: &[Branch],
    writes: &mut List<Marked>,
    best: Option<Failure>,
) -> Result<Option<Failure>, NoMemory>
    ensures writes { OnOk result (writes.new ≡ writes.old ++ (together (map parallel_of_branch all.now)).writes) }
    ensures best { IfOk result (λ found. found ≡ first_of best (all_clashes vars.now (splits_after [] (map parallel_of_branch all.now)))) }
{
    let start = writes.len();
    let mut touched = Touched::new(alloc);
    let mut best = best;
    for branch in all {
        let mark = writes.len();
        best = block(alloc, vars, &branch.body, writes, best)?;
        best = clash(vars, &touched, writes, start, mark, best);
        note(&mut touched, &writes[mark..])?;
    }
    Ok(best)
}

/// Adds what is written.
fn note(touched: &mut Touched, writes: &[Marked]) -> Result<(), NoMemory>
    ensures knows { OnOk result (Knows touched.new writes.now) }
    ensures keeps { OnOk result ((earlier : Elements MarkedPath) → Knows touched.old earlier → Knows touched.new earlier) }
{
    for write in writes {
        touched.add(&write.path)?;
    }
    Ok(())
}

/// Compares what is written from `mark` on with what is written from `start` to `mark`, which `touched` has.
fn clash(
    vars: &[Var],
    touched: &Touched,
    writes: &[Marked],
    start: usize,
    mark: usize,
    best: Option<Failure>,
) -> Option<Failure>
    requires from { start ≤ mark }
    requires to { mark ≤ length writes.now }
    requires known { Knows touched.now (drop start (take mark writes.now)) }
    ensures { result ≡ first_of best (clashes vars.now (record { earlier = drop start (take mark writes.now); writes = drop mark writes.now })) }
{
    let earlier = &writes[..mark];
    let earlier = &earlier[start..];
    clash_all(vars, touched, earlier, &writes[mark..], best)
}

fn clash_all(
    vars: &[Var],
    touched: &Touched,
    earlier: &[Marked],
    writes: &[Marked],
    best: Option<Failure>,
) -> Option<Failure>
    requires { Knows touched.now earlier.now }
    ensures { result ≡ first_of best (clashes vars.now (record { earlier = earlier.now; writes = writes.now })) }
{
    let mut best = best;
    for second in writes {
        best = clash_with(vars, touched, earlier, second, best);
    }
    best
}

/// Compares one write with those of earlier branches, where one of them may overlap it. None fails whose root has
/// no declaration.
fn clash_with(
    vars: &[Var],
    touched: &Touched,
    earlier: &[Marked],
    second: &Marked,
    best: Option<Failure>,
) -> Option<Failure>
    requires { Knows touched.now earlier.now }
    ensures { result ≡ first_of best (clashes_with vars.now earlier.now second.now) }
{
    if !touched.may_meet(&second.path) {
        return best;
    }
    match vars.get(second.path.root as usize) {
        Some(var) => clash_one(var.place, earlier, second, best),
        None => best,
    }
}

fn clash_one(
    declared: Place,
    earlier: &[Marked],
    second: &Marked,
    best: Option<Failure>,
) -> Option<Failure>
    ensures { result ≡ first_of best (clashes_at declared earlier.now second.now) }
{
    let mut best = best;
    for first in earlier {
        best = clash_pair(declared, first, second, best);
    }
    best
}

fn clash_pair(
    declared: Place,
    first: &Marked,
    second: &Marked,
    best: Option<Failure>,
) -> Option<Failure>
    ensures { result ≡ first_of best (clash_of declared second.now first.now) }
{
    if !overlaps(&first.path, &second.path) {
        return best;
    }
    lesser(
        best,
        Failure {
            rule: Rule::Conflict,
            at: first.place,
            further: Further::Two(second.place, declared),
        },
    )
}

fn write(alloc: Global, at: Place, path: &Path, writes: &mut List<Marked>) -> Result<(), NoMemory>
    ensures { OnOk result (writes.new ≡ writes.old ++ written at (static_of path.now) ∷ []) }
{
    writes.push(Marked {
        place: at,
        path: static_of(alloc, path)?,
    })?;
    Ok(())
}

fn write_target(
    alloc: Global,
    at: Place,
    target: &Option<Path>,
    writes: &mut List<Marked>,
) -> Result<(), NoMemory>
    ensures { OnOk result (writes.new ≡ writes.old ++ map (written at) (target_static target.now)) }
{
    match target {
        Some(path) => write(alloc, at, path, writes),
        None => Ok(()),
    }
}

fn write_all(
    alloc: Global,
    at: Place,
    outputs: &[Path],
    writes: &mut List<Marked>,
) -> Result<(), NoMemory>
    ensures { OnOk result (writes.new ≡ writes.old ++ map (written at) (map static_of outputs.now)) }
{
    for path in outputs {
        write(alloc, at, path, writes)?;
    }
    Ok(())
}
