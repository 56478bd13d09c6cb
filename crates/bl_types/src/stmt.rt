//! Statements with their types.
#![tactic(auto, using(crate::proofs::NoteLemmas::notes, crate::proofs::StateLemmas::states))]

ghost use Rattle.std.specs.Prelude.{◌≡◌, ◌++◌, IfOk, OnOk, Some, map, option_map};
ghost use Rattle.bl_tree.specs.declared.tree.StmtKind.TheVariants.{Await, Return, Until, When, While};
ghost use Rattle.bl_types.specs.Expressions.{targeted};
ghost use Rattle.bl_types.specs.inner.States.{passed};
ghost use Rattle.bl_types.specs.Statements.{arm_of, arm_walked, assign, branch_walked, condition, declare, in_order, kind_walked, misplaced};
ghost use Rattle.bl_types.specs.Statements.{returned, stmt_made, walked_block, walked_stmt};

use crate::call::{call, changes, placed, run};
use crate::declare::{constant, declare, initial, variable};
use crate::environment::State;
use crate::expr::{in_context, target};
use crate::form::Found;
use crate::slices::keep;
use bl_names_tree::expr::{NamedExpr, NamedTarget, Root};
use bl_names_tree::item::{NamedConstant, NamedVar};
use bl_names_tree::stmt::{NamedArm, NamedBranch, NamedStmt, NamedStmtKind};
use bl_tree::slices::element;
use bl_tree::tree::{Arm, Branch, Expr, Guard, Stmt, StmtKind, Ty};
use bl_tree::{List, NoMemory, Place, Rule, Scalar};
use std::alloc::Global;

/// A condition, which is bool.
fn condition(alloc: Global, e: &NamedExpr, state: &mut State) -> Result<Option<Expr>, NoMemory>
    ensures made { IfOk result (λ made. made ≡ (condition state.old.env e.now).made) }
    ensures state { OnOk result (state.new ≡ passed state.old state.old.env (condition state.old.env e.now).failures) }
{
    let truth = Ty::Scalar(Scalar::Bool);
    in_context(alloc, Some(&truth), e, &state.env, &mut state.notes)
}

/// `await`, `run`, `cobegin` and `when` stand in no function.
fn in_activity(at: Place, state: &mut State)
    ensures { state.new ≡ passed state.old state.old.env (misplaced state.old.env.kind at) }
{
    placed(at, state.env.kind, &mut state.notes);
}

fn await_made(test: Option<Expr>) -> Option<StmtKind>
    ensures { result ≡ option_map Await test }
{
    match test {
        Some(e) => Some(StmtKind::Await(e)),
        None => None,
    }
}

fn when_made(guard: Guard, test: Option<Expr>, body: List<Stmt>) -> Option<StmtKind>
    ensures { result ≡ option_map (λ e. When guard e body) test }
{
    match test {
        Some(e) => Some(StmtKind::When(guard, e, body)),
        None => None,
    }
}

fn while_made(test: Option<Expr>, body: List<Stmt>) -> Option<StmtKind>
    ensures { result ≡ option_map (λ e. While e body) test }
{
    match test {
        Some(e) => Some(StmtKind::While(e, body)),
        None => None,
    }
}

fn until_made(body: List<Stmt>, test: Option<Expr>) -> Option<StmtKind>
    ensures { result ≡ option_map (λ e. Until body e) test }
{
    match test {
        Some(e) => Some(StmtKind::Until(body, e)),
        None => None,
    }
}

fn return_made(e: Option<Expr>) -> Option<StmtKind>
    ensures { result ≡ option_map (λ e. Return (Some e)) e }
{
    match e {
        Some(e) => Some(StmtKind::Return(Some(e))),
        None => None,
    }
}

/// A condition of a statement that stands in no function.
fn guarded(
    alloc: Global,
    at: Place,
    e: &NamedExpr,
    state: &mut State,
) -> Result<Option<Expr>, NoMemory>
    ensures made { IfOk result (λ made. made ≡ (condition state.old.env e.now).made) }
    ensures state { OnOk result (state.new ≡ passed state.old state.old.env (misplaced state.old.env.kind at ++ (condition state.old.env e.now).failures)) }
{
    in_activity(at, state);
    condition(alloc, e, state)
}

fn declared(
    alloc: Global,
    k: u32,
    var: &NamedVar,
    e: &Option<NamedExpr>,
    state: &mut State,
) -> Result<Option<StmtKind>, NoMemory>
    ensures made { IfOk result (λ made. made ≡ (declare k (Some var.now) e.now state.old.env).made) }
    ensures state { OnOk result (state.new ≡ passed state.old (declare k (Some var.now) e.now state.old.env).env
        (declare k (Some var.now) e.now state.old.env).failures) }
{
    match e {
        Some(e) => {
            let value = initial(alloc, &var.ty, e, &state.env, &mut state.notes)?;
            declare(alloc, var, value.ty, &mut state.env)?;
            match value.value {
                Some(e) => Ok(Some(StmtKind::Declare(k, Some(e)))),
                None => Ok(None),
            }
        }
        None => {
            variable(alloc, var, state)?;
            Ok(Some(StmtKind::Declare(k, None)))
        }
    }
}

fn assign(
    alloc: Global,
    place: &NamedTarget,
    e: &NamedExpr,
    state: &mut State,
) -> Result<Option<StmtKind>, NoMemory>
    ensures made { IfOk result (λ made. made ≡ (assign place.now (targeted state.old.env place.now) e.now state.old.env).made) }
    ensures state { OnOk result (state.new ≡ passed state.old (assign place.now (targeted state.old.env place.now) e.now state.old.env).env
        (assign place.now (targeted state.old.env place.now) e.now state.old.env).failures) }
{
    let found = target(alloc, place, &state.env, &mut state.notes)?;
    let made = match found {
        Found::Place(path) => {
            match in_context(alloc, Some(&path.ty), e, &state.env, &mut state.notes)? {
                Some(e) => Some(StmtKind::Assign(path, e)),
                None => None,
            }
        }
        _ => {
            in_context(alloc, None, e, &state.env, &mut state.notes)?;
            None
        }
    };
    if let Root::Variable(k) = place.root {
        changes(place.place, k, &state.env, &mut state.notes);
    }
    Ok(made)
}

/// The expression of a `return`, which stands only where the unit has a result.
fn returned_value(
    alloc: Global,
    at: Place,
    e: &NamedExpr,
    state: &mut State,
) -> Result<Option<Expr>, NoMemory>
    ensures made { IfOk result (λ made. option_map (λ e. Return (Some e)) made ≡ (returned at (Some e.now) state.old.env.result state.old.env).made) }
    ensures state { OnOk result (state.new ≡ passed state.old state.old.env (returned at (Some e.now) state.old.env.result state.old.env).failures) }
{
    match state.env.result {
        Some(s) => {
            let ty = Ty::Scalar(s);
            in_context(alloc, Some(&ty), e, &state.env, &mut state.notes)
        }
        None => {
            let made = in_context(alloc, None, e, &state.env, &mut state.notes)?;
            state.notes.fail(Rule::Return, at);
            Ok(made)
        }
    }
}

/// A `return` has an expression exactly where its unit has a result.
fn returned(
    alloc: Global,
    at: Place,
    e: &Option<NamedExpr>,
    state: &mut State,
) -> Result<Option<StmtKind>, NoMemory>
    ensures made { IfOk result (λ made. made ≡ (returned at e.now state.old.env.result state.old.env).made) }
    ensures state { OnOk result (state.new ≡ passed state.old state.old.env (returned at e.now state.old.env.result state.old.env).failures) }
{
    match e {
        Some(e) => {
            let made = returned_value(alloc, at, e, state)?;
            Ok(return_made(made))
        }
        None => {
            if state.env.result.is_some() {
                state.notes.fail(Rule::Return, at);
            }
            Ok(Some(StmtKind::Return(None)))
        }
    }
}

/// What a statement goes by: the constants of the program, and the variables of its unit.
#[derive(Clone, Copy)]
pub struct Source<'a> {
    pub constants: &'a [NamedConstant],
    pub vars: &'a [NamedVar],
}

#[cycle(statements)]
fn kind(
    alloc: Global,
    s: &NamedStmt,
    source: Source<'_>,
    state: &mut State,
) -> Result<Option<StmtKind>, NoMemory>
    ensures made { IfOk result (λ made. made ≡ (kind_walked source.entry.constants.now source.entry.vars.now s.now state.old.env).made) }
    ensures state { OnOk result (state.new ≡ passed state.old (kind_walked source.entry.constants.now source.entry.vars.now s.now state.old.env).env
        (kind_walked source.entry.constants.now source.entry.vars.now s.now state.old.env).failures) }
{
    match &s.what {
        NamedStmtKind::Declare(k, e) => match element(source.vars, *k as usize) {
            Some(var) => declared(alloc, *k, var, e, state),
            None => Ok(None),
        },
        NamedStmtKind::Const(k) => {
            if let Some(one) = element(source.constants, *k as usize) {
                constant(alloc, one, state)?;
            }
            Ok(None)
        }
        NamedStmtKind::Assign(place, e) => assign(alloc, place, e, state),
        NamedStmtKind::Call(name, f, inputs, outputs) => {
            call(
                alloc,
                *name,
                *f,
                inputs,
                outputs,
                &state.env,
                &mut state.notes,
            )
        }
        NamedStmtKind::Await(e) => {
            let test = guarded(alloc, s.place, e, state)?;
            Ok(await_made(test))
        }
        NamedStmtKind::Run(place, name, a, inputs, outputs) => run(
            alloc,
            s.place,
            place,
            *name,
            *a,
            inputs,
            outputs,
            &state.env,
            &mut state.notes,
        ),
        NamedStmtKind::If(all, other) => {
            let arms = arms(alloc, all, source, state)?;
            let other = block(alloc, other, source, state)?;
            Ok(Some(StmtKind::If(arms, other)))
        }
        NamedStmtKind::Cobegin(all) => {
            in_activity(s.place, state);
            let branches = branches(alloc, all, source, state)?;
            Ok(Some(StmtKind::Cobegin(branches)))
        }
        NamedStmtKind::When(guard, e, body) => {
            let test = guarded(alloc, s.place, e, state)?;
            let body = block(alloc, body, source, state)?;
            Ok(when_made(*guard, test, body))
        }
        NamedStmtKind::Repeat(body) => {
            let body = block(alloc, body, source, state)?;
            Ok(Some(StmtKind::Repeat(body)))
        }
        NamedStmtKind::Until(body, e) => {
            let body = block(alloc, body, source, state)?;
            let test = condition(alloc, e, state)?;
            Ok(until_made(body, test))
        }
        NamedStmtKind::While(e, body) => {
            let test = condition(alloc, e, state)?;
            let body = block(alloc, body, source, state)?;
            Ok(while_made(test, body))
        }
        NamedStmtKind::Return(e) => returned(alloc, s.place, e, state),
    }
}

fn stmt_made(place: Place, what: Option<StmtKind>) -> Option<Stmt>
    ensures { result ≡ option_map (stmt_made place) what }
{
    match what {
        Some(what) => Some(Stmt { place, what }),
        None => None,
    }
}

#[cycle(statements)]
fn statement(
    alloc: Global,
    s: &NamedStmt,
    source: Source<'_>,
    state: &mut State,
) -> Result<Option<Stmt>, NoMemory>
    ensures made { IfOk result (λ made. made ≡ (walked_stmt source.entry.constants.now source.entry.vars.now s.now state.old.env).made) }
    ensures state { OnOk result (state.new ≡ passed state.old (walked_stmt source.entry.constants.now source.entry.vars.now s.now state.old.env).env
        (walked_stmt source.entry.constants.now source.entry.vars.now s.now state.old.env).failures) }
{
    let what = kind(alloc, s, source, state)?;
    Ok(stmt_made(s.place, what))
}

#[cycle(statements)]
pub fn block(
    alloc: Global,
    body: &[NamedStmt],
    source: Source<'_>,
    state: &mut State,
) -> Result<List<Stmt>, NoMemory>
    ensures made { IfOk result (λ made. made ≡ (walked_block source.entry.constants.now source.entry.vars.now body.now state.old.env).made) }
    ensures state { OnOk result (state.new ≡ passed state.old (walked_block source.entry.constants.now source.entry.vars.now body.now state.old.env).env
        (walked_block source.entry.constants.now source.entry.vars.now body.now state.old.env).failures) }
{
    let mut made = List::new(alloc);
    for s in body {
        let one = statement(alloc, s, source, state)?;
        keep(&mut made, one)?;
    }
    Ok(made)
}

fn arm_made(test: Option<Expr>, body: List<Stmt>) -> Option<Arm>
    ensures { result ≡ option_map (λ e. arm_of e body) test }
{
    match test {
        Some(test) => Some(Arm { test, body }),
        None => None,
    }
}

#[cycle(statements)]
fn arm(
    alloc: Global,
    arm: &NamedArm,
    source: Source<'_>,
    state: &mut State,
) -> Result<Option<Arm>, NoMemory>
    ensures made { IfOk result (λ made. made ≡ (arm_walked source.entry.constants.now source.entry.vars.now arm.now state.old.env).made) }
    ensures state { OnOk result (state.new ≡ passed state.old (arm_walked source.entry.constants.now source.entry.vars.now arm.now state.old.env).env
        (arm_walked source.entry.constants.now source.entry.vars.now arm.now state.old.env).failures) }
{
    let test = condition(alloc, &arm.test, state)?;
    let body = block(alloc, &arm.body, source, state)?;
    Ok(arm_made(test, body))
}

#[cycle(statements)]
fn arms(
    alloc: Global,
    all: &[NamedArm],
    source: Source<'_>,
    state: &mut State,
) -> Result<List<Arm>, NoMemory>
    ensures made { IfOk result (λ made. made ≡ (in_order (map (arm_walked source.entry.constants.now source.entry.vars.now) all.now) state.old.env).made) }
    ensures state { OnOk result (state.new ≡ passed state.old
        (in_order (map (arm_walked source.entry.constants.now source.entry.vars.now) all.now) state.old.env).env
        (in_order (map (arm_walked source.entry.constants.now source.entry.vars.now) all.now) state.old.env).failures) }
{
    let mut made = List::new(alloc);
    for one in all {
        let one = arm(alloc, one, source, state)?;
        keep(&mut made, one)?;
    }
    Ok(made)
}

#[cycle(statements)]
fn branch(
    alloc: Global,
    branch: &NamedBranch,
    source: Source<'_>,
    state: &mut State,
) -> Result<Option<Branch>, NoMemory>
    ensures made { IfOk result (λ made. made ≡ (branch_walked source.entry.constants.now source.entry.vars.now branch.now state.old.env).made) }
    ensures state { OnOk result (state.new ≡ passed state.old (branch_walked source.entry.constants.now source.entry.vars.now branch.now state.old.env).env
        (branch_walked source.entry.constants.now source.entry.vars.now branch.now state.old.env).failures) }
{
    let body = block(alloc, &branch.body, source, state)?;
    Ok(Some(Branch {
        weak: branch.weak,
        body,
    }))
}

#[cycle(statements)]
fn branches(
    alloc: Global,
    all: &[NamedBranch],
    source: Source<'_>,
    state: &mut State,
) -> Result<List<Branch>, NoMemory>
    ensures made { IfOk result
        (λ made. made ≡ (in_order (map (branch_walked source.entry.constants.now source.entry.vars.now) all.now) state.old.env).made) }
    ensures state { OnOk result (state.new ≡ passed state.old
        (in_order (map (branch_walked source.entry.constants.now source.entry.vars.now) all.now) state.old.env).env
        (in_order (map (branch_walked source.entry.constants.now source.entry.vars.now) all.now) state.old.env).failures) }
{
    let mut made = List::new(alloc);
    for one in all {
        let one = branch(alloc, one, source, state)?;
        keep(&mut made, one)?;
    }
    Ok(made)
}
