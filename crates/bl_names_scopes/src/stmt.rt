//! What statements do to names.
#![tactic(auto, using(crate::proofs::WalkLemmas::walks))]

ghost use Rattle.std.specs.Prelude.{◌≡◌, OnOk, ◌++◌, ◌∷◌, [], map};
ghost use Rattle.bl_tree.specs.Reduce.{joined};
ghost use Rattle.bl_names_scopes.specs.inner.Judged.{judged_by};
ghost use Rattle.bl_names_scopes.specs.Marks.{argument_marks, constant_marks, declared_after, expr_marks, in_scope, marks_of_arm, marks_of_branch};
ghost use Rattle.bl_names_scopes.specs.Marks.{optional, path_marks, stmt_marks, target_marks, type_marks, uses};

use crate::expr::{expr, exprs, optional_expr, optional_path, optional_ty, paths, target};
use crate::judge::Judge;
use crate::kind::{Kind, Wanted};
use bl_parse_tree::expr::RawExpr;
use bl_parse_tree::name::Name;
use bl_parse_tree::stmt::{RawArm, RawBranch, RawConstant, RawPath, RawStmt, RawStmtKind};
use bl_parse_tree::types::RawType;
use bl_tree::NoMemory;
use std::alloc::Global;

/// A variable or constant is visible after its value.
fn declared<'a>(
    name: &'a Name,
    kind: Kind,
    ty: &Option<RawType>,
    value: &RawExpr,
    judge: &mut Judge<'a>,
) -> Result<(), NoMemory>
    ensures { OnOk result (judge.new ≡ judged_by judge.old (declared_after (optional type_marks ty.now ++ expr_marks value.now) name.now kind)) }
{
    optional_ty(ty, judge);
    expr(value, judge);
    judge.declare(name, kind)
}

/// A variable that may have no initial value.
fn variable<'a>(
    name: &'a Name,
    ty: &Option<RawType>,
    value: &Option<RawExpr>,
    judge: &mut Judge<'a>,
) -> Result<(), NoMemory>
    ensures { OnOk result
        (judge.new ≡ judged_by judge.old (declared_after (optional type_marks ty.now ++ optional expr_marks value.now) name.now Kind.Variable)) }
{
    optional_ty(ty, judge);
    optional_expr(value, judge);
    judge.declare(name, Kind::Variable)
}

pub fn constant<'a>(constant: &'a RawConstant, judge: &mut Judge<'a>) -> Result<(), NoMemory>
    ensures { OnOk result (judge.new ≡ judged_by judge.old (constant_marks constant.now)) }
{
    declared(
        &constant.name,
        Kind::Constant,
        &constant.ty,
        &constant.value,
        judge,
    )
}

fn arguments(inputs: &[RawExpr], outputs: &[RawPath], judge: &mut Judge<'_>)
    ensures { judge.new ≡ judged_by judge.old (argument_marks inputs.now outputs.now) }
{
    exprs(inputs, judge);
    paths(outputs, judge);
}

/// A call or `run`, of which this is wanted.
fn call(
    callee: &Name,
    wanted: Wanted,
    inputs: &[RawExpr],
    outputs: &[RawPath],
    judge: &mut Judge<'_>,
)
    ensures { judge.new ≡ judged_by judge.old (uses callee.now wanted ∷ argument_marks inputs.now outputs.now) }
{
    judge.see(callee, wanted);
    arguments(inputs, outputs, judge);
}

#[cycle(statements)]
pub fn block<'a>(alloc: Global, body: &'a [RawStmt], judge: &mut Judge<'a>) -> Result<(), NoMemory>
    ensures { OnOk result (judge.new ≡ judged_by judge.old (joined (map stmt_marks body.now))) }
{
    for s in body {
        statement(alloc, s, judge)?;
    }
    Ok(())
}

/// Statements in a scope of their own.
#[cycle(statements)]
fn scope<'a>(alloc: Global, body: &'a [RawStmt], judge: &mut Judge<'a>) -> Result<(), NoMemory>
    ensures { OnOk result (judge.new ≡ judged_by judge.old (in_scope (joined (map stmt_marks body.now)))) }
{
    judge.open(alloc)?;
    block(alloc, body, judge)?;
    judge.close(alloc);
    Ok(())
}

#[cycle(statements)]
fn statement<'a>(alloc: Global, s: &'a RawStmt, judge: &mut Judge<'a>) -> Result<(), NoMemory>
    ensures { OnOk result (judge.new ≡ judged_by judge.old (stmt_marks s.now)) }
{
    match &s.what {
        RawStmtKind::Var(name, ty, value) => variable(name, ty, value, judge),
        RawStmtKind::Let(name, ty, value) => declared(name, Kind::Variable, ty, value, judge),
        RawStmtKind::Const(one) => constant(one, judge),
        RawStmtKind::If(all, other) => {
            arms(alloc, all, judge)?;
            scope(alloc, other, judge)
        }
        RawStmtKind::Cobegin(all) => branches(alloc, all, judge),
        RawStmtKind::When(_, e, body) => {
            expr(e, judge);
            scope(alloc, body, judge)
        }
        RawStmtKind::While(e, body) => {
            expr(e, judge);
            scope(alloc, body, judge)
        }
        RawStmtKind::Repeat(body) => scope(alloc, body, judge),
        RawStmtKind::Until(body, e) => {
            scope(alloc, body, judge)?;
            expr(e, judge);
            Ok(())
        }
        RawStmtKind::Assign(place, e) => {
            target(place, Wanted::Variable, judge);
            expr(e, judge);
            Ok(())
        }
        RawStmtKind::Call(name, inputs, outputs) => {
            call(name, Wanted::Function, inputs, outputs, judge);
            Ok(())
        }
        RawStmtKind::Run(place, name, inputs, outputs) => {
            optional_path(place, judge);
            call(name, Wanted::Activity, inputs, outputs, judge);
            Ok(())
        }
        RawStmtKind::Await(e) => {
            expr(e, judge);
            Ok(())
        }
        RawStmtKind::Return(e) => {
            optional_expr(e, judge);
            Ok(())
        }
    }
}

#[cycle(statements)]
fn arms<'a>(alloc: Global, all: &'a [RawArm], judge: &mut Judge<'a>) -> Result<(), NoMemory>
    ensures { OnOk result (judge.new ≡ judged_by judge.old (joined (map marks_of_arm all.now))) }
{
    for arm in all {
        expr(&arm.test, judge);
        scope(alloc, &arm.body, judge)?;
    }
    Ok(())
}

#[cycle(statements)]
fn branches<'a>(alloc: Global, all: &'a [RawBranch], judge: &mut Judge<'a>) -> Result<(), NoMemory>
    ensures { OnOk result (judge.new ≡ judged_by judge.old (joined (map marks_of_branch all.now))) }
{
    for branch in all {
        scope(alloc, &branch.body, judge)?;
    }
    Ok(())
}
