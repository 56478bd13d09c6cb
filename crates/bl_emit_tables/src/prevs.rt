//! The variables that a unit reads with `prev`.

ghost use Rattle.std.specs.Prelude.{◌≡◌, ◌++◌, map, IfOk, OnOk};
ghost use Rattle.bl_tree.specs.Reduce.{joined};
ghost use Rattle.bl_machine_prevs.specs.Prevs.{argument_prevs, prevs_in, prevs_in_arm, prevs_in_branch, prevs_in_expr, prevs_in_part, prevs_in_path};
ghost use Rattle.bl_machine_prevs.specs.Prevs.{prevs_of, optional_prevs, target_prevs};

use bl_tree::tree::{Arm, Branch, Expr, ExprKind, Part, Path, Stmt, StmtKind, Unit};
use bl_tree::{List, NoMemory};
use std::alloc::Global;

/// Appends the variables that the expression reads with `prev`.
#[cycle(expressions)]
fn in_expr(e: &Expr, into: &mut List<u32>) -> Result<(), NoMemory>
    ensures { OnOk result (into.new ≡ into.old ++ prevs_in_expr e.now) }
{
    match &e.what {
        ExprKind::Literal(_, _) => Ok(()),
        ExprKind::Prev(k) => {
            into.push(*k)?;
            Ok(())
        }
        ExprKind::Read(path) => in_path(path, into),
        ExprKind::One(_, a) | ExprKind::Cast(_, a) => in_expr(a, into),
        ExprKind::Two(_, a, b) => {
            in_expr(a, into)?;
            in_expr(b, into)
        }
        ExprKind::Call(_, inputs) => in_exprs(inputs, into),
    }
}

#[cycle(expressions)]
fn in_exprs(list: &[Expr], into: &mut List<u32>) -> Result<(), NoMemory>
    ensures { OnOk result (into.new ≡ into.old ++ joined (map prevs_in_expr list.now)) }
{
    for e in list {
        in_expr(e, into)?;
    }
    Ok(())
}

/// Appends those in the indices of the path.
#[cycle(expressions)]
fn in_path(path: &Path, into: &mut List<u32>) -> Result<(), NoMemory>
    ensures { OnOk result (into.new ≡ into.old ++ prevs_in_path path.now) }
{
    for part in path.parts.iter() {
        in_part(part, into)?;
    }
    Ok(())
}

#[cycle(expressions)]
fn in_part(part: &Part, into: &mut List<u32>) -> Result<(), NoMemory>
    ensures { OnOk result (into.new ≡ into.old ++ prevs_in_part part.now) }
{
    match part {
        Part::Field(_) => Ok(()),
        Part::Index(e) => in_expr(e, into),
    }
}

fn in_paths(paths: &[Path], into: &mut List<u32>) -> Result<(), NoMemory>
    ensures { OnOk result (into.new ≡ into.old ++ joined (map prevs_in_path paths.now)) }
{
    for path in paths {
        in_path(path, into)?;
    }
    Ok(())
}

fn in_optional(e: &Option<Expr>, into: &mut List<u32>) -> Result<(), NoMemory>
    ensures { OnOk result (into.new ≡ into.old ++ optional_prevs e.now) }
{
    match e {
        Some(e) => in_expr(e, into),
        None => Ok(()),
    }
}

fn in_target(target: &Option<Path>, into: &mut List<u32>) -> Result<(), NoMemory>
    ensures { OnOk result (into.new ≡ into.old ++ target_prevs target.now) }
{
    match target {
        Some(path) => in_path(path, into),
        None => Ok(()),
    }
}

fn in_arguments(inputs: &[Expr], outputs: &[Path], into: &mut List<u32>) -> Result<(), NoMemory>
    ensures { OnOk result (into.new ≡ into.old ++ argument_prevs inputs.now outputs.now) }
{
    in_exprs(inputs, into)?;
    in_paths(outputs, into)
}

/// Appends the variables under a `prev` in the statement, in source order.
#[cycle(statements)]
fn in_statement(s: &Stmt, into: &mut List<u32>) -> Result<(), NoMemory>
    ensures { OnOk result (into.new ≡ into.old ++ prevs_in s.now) }
{
    match &s.what {
        StmtKind::Declare(_, initial) => in_optional(initial, into),
        StmtKind::Assign(path, e) => {
            in_path(path, into)?;
            in_expr(e, into)
        }
        StmtKind::Call(_, inputs, outputs) => in_arguments(inputs, outputs, into),
        StmtKind::Await(e) => in_expr(e, into),
        StmtKind::Run(target, _, inputs, outputs) => {
            in_target(target, into)?;
            in_arguments(inputs, outputs, into)
        }
        StmtKind::If(arms, other) => {
            in_arms(arms, into)?;
            in_block(other, into)
        }
        StmtKind::Cobegin(branches) => in_branches(branches, into),
        StmtKind::When(_, e, body) | StmtKind::While(e, body) => {
            in_expr(e, into)?;
            in_block(body, into)
        }
        StmtKind::Repeat(body) => in_block(body, into),
        StmtKind::Until(body, e) => {
            in_block(body, into)?;
            in_expr(e, into)
        }
        StmtKind::Return(e) => in_optional(e, into),
    }
}

#[cycle(statements)]
fn in_block(body: &[Stmt], into: &mut List<u32>) -> Result<(), NoMemory>
    ensures { OnOk result (into.new ≡ into.old ++ joined (map prevs_in body.now)) }
{
    for s in body {
        in_statement(s, into)?;
    }
    Ok(())
}

#[cycle(statements)]
fn in_arms(arms: &[Arm], into: &mut List<u32>) -> Result<(), NoMemory>
    ensures { OnOk result (into.new ≡ into.old ++ joined (map prevs_in_arm arms.now)) }
{
    for arm in arms {
        in_expr(&arm.test, into)?;
        in_block(&arm.body, into)?;
    }
    Ok(())
}

#[cycle(statements)]
fn in_branches(branches: &[Branch], into: &mut List<u32>) -> Result<(), NoMemory>
    ensures { OnOk result (into.new ≡ into.old ++ joined (map prevs_in_branch branches.now)) }
{
    for branch in branches {
        in_block(&branch.body, into)?;
    }
    Ok(())
}

/// The positions of the variables of which the unit asks what they were when the tick began, in source order, and each as often as it is
/// asked for. Fails only if memory runs out.
pub fn prevs_of(alloc: Global, unit: &Unit) -> Result<List<u32>, NoMemory>
    ensures { IfOk result (λ prevs. prevs ≡ prevs_of unit.now) }
{
    let mut prevs = List::new(alloc);
    in_block(&unit.body, &mut prevs)?;
    Ok(prevs)
}
