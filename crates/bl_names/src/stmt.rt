//! Statements with positions in place of names.

ghost use Rattle.std.specs.Prelude.{◌≡◌, IfOk, OnOk, Some, map, option_map};
ghost use Rattle.bl_names_scopes.specs.Scopes.{enter};
ghost use Rattle.bl_names.specs.Named.{arms_piece, block_piece, branches_piece, constant_piece, named_var, own_scope, piece_of_arm, piece_of_branch};
ghost use Rattle.bl_names.specs.Named.{piece_of_kind, stmt_piece};
ghost use Rattle.bl_names.specs.Naming.{named_expr, named_path, named_target, position};
ghost use Rattle.bl_names.specs.inner.Past.{past, with_variable};

use crate::expr::{
    copy_of, expr, exprs, optional_expr, optional_path, optional_ty, paths, position, target,
};
use crate::state::State;
use bl_names_scopes::scopes::Scopes;
use bl_names_tree::expr::NamedExpr;
use bl_names_tree::item::{NamedConstant, NamedVar};
use bl_names_tree::stmt::{NamedArm, NamedBranch, NamedStmt, NamedStmtKind};
use bl_parse_tree::expr::{RawExpr, RawTarget};
use bl_parse_tree::name::Name;
use bl_parse_tree::stmt::{RawArm, RawBranch, RawConstant, RawPath, RawStmt, RawStmtKind};
use bl_parse_tree::types::RawType;
use bl_tree::tree::Role;
use bl_tree::{List, NoMemory};
use std::alloc::Global;

pub fn var(
    alloc: Global,
    name: &Name,
    ty: &Option<RawType>,
    role: Role,
    scopes: &Scopes<'_>,
) -> Result<NamedVar, NoMemory>
    ensures { IfOk result (λ made. made ≡ named_var scopes.now name.now ty.now role) }
{
    Ok(NamedVar {
        name: copy_of(alloc, name)?,
        ty: optional_ty(alloc, ty, scopes)?,
        role,
    })
}

/// A `var` or `let` with its initial value.
fn declare<'a>(
    alloc: Global,
    name: &'a Name,
    ty: &Option<RawType>,
    role: Role,
    value: Option<NamedExpr>,
    state: &mut State<'a>,
) -> Result<NamedStmtKind, NoMemory>
    ensures made { IfOk result (λ made. made ≡ NamedStmtKind.Declare state.old.scopes.counts.variables value) }
    ensures past { OnOk result (state.new ≡ with_variable state.old name.now (named_var state.old.scopes name.now ty.now role)) }
{
    let var = var(alloc, name, ty, role, &state.scopes)?;
    let position = state.declare_variable(name, var)?;
    Ok(NamedStmtKind::Declare(position, value))
}

/// A `const` of the file or of a block. Answers its position.
pub fn constant<'a>(
    alloc: Global,
    constant: &'a RawConstant,
    state: &mut State<'a>,
) -> Result<u32, NoMemory>
    ensures made { IfOk result (λ made. made ≡ state.old.scopes.counts.constants) }
    ensures past { OnOk result (state.new ≡ past state.old (constant_piece constant.now)) }
{
    let named = NamedConstant {
        name: copy_of(alloc, &constant.name)?,
        ty: optional_ty(alloc, &constant.ty, &state.scopes)?,
        value: expr(alloc, &constant.value, &state.scopes)?,
    };
    state.declare_constant(&constant.name, named)
}

fn assign(
    alloc: Global,
    place: &RawTarget,
    e: &RawExpr,
    scopes: &Scopes<'_>,
) -> Result<NamedStmtKind, NoMemory>
    ensures { IfOk result (λ made. made ≡ NamedStmtKind.Assign (named_target scopes.now place.now) (named_expr scopes.now e.now)) }
{
    let place = target(alloc, place, scopes)?;
    Ok(NamedStmtKind::Assign(place, expr(alloc, e, scopes)?))
}

fn call(
    alloc: Global,
    callee: &Name,
    inputs: &[RawExpr],
    outputs: &[RawPath],
    scopes: &Scopes<'_>,
) -> Result<NamedStmtKind, NoMemory>
    ensures { IfOk result (λ made. made ≡ NamedStmtKind.Call callee.now.place (position scopes.now callee.now)
        (map (named_expr scopes.now) inputs.now) (map (named_path scopes.now) outputs.now)) }
{
    let inputs = exprs(alloc, inputs, scopes)?;
    let outputs = paths(alloc, outputs, scopes)?;
    let callee_position = position(scopes, callee);
    Ok(NamedStmtKind::Call(callee.place, callee_position, inputs, outputs))
}

fn run(
    alloc: Global,
    place: &Option<RawPath>,
    callee: &Name,
    inputs: &[RawExpr],
    outputs: &[RawPath],
    scopes: &Scopes<'_>,
) -> Result<NamedStmtKind, NoMemory>
    ensures { IfOk result (λ made. made ≡ NamedStmtKind.Run (option_map (named_path scopes.now) place.now)
        callee.now.place (position scopes.now callee.now) (map (named_expr scopes.now) inputs.now) (map (named_path scopes.now) outputs.now)) }
{
    let place = optional_path(alloc, place, scopes)?;
    let inputs = exprs(alloc, inputs, scopes)?;
    let outputs = paths(alloc, outputs, scopes)?;
    let callee_position = position(scopes, callee);
    Ok(NamedStmtKind::Run(place, callee.place, callee_position, inputs, outputs))
}

#[cycle(named_statements)]
pub fn block<'a>(
    alloc: Global,
    body: &'a [RawStmt],
    state: &mut State<'a>,
) -> Result<List<NamedStmt>, NoMemory>
    ensures made { IfOk result (λ made. made ≡ (block_piece body.now).made state.old.scopes) }
    ensures past { OnOk result (state.new ≡ past state.old (block_piece body.now)) }
{
    let mut made = List::new(alloc);
    for s in body {
        made.push(statement(alloc, s, state)?)?;
    }
    Ok(made)
}

/// Statements in a scope of their own.
#[cycle(named_statements)]
fn scope<'a>(
    alloc: Global,
    body: &'a [RawStmt],
    state: &mut State<'a>,
) -> Result<List<NamedStmt>, NoMemory>
    ensures made { IfOk result (λ made. made ≡ (own_scope (block_piece body.now)).made state.old.scopes) }
    ensures past { OnOk result (state.new ≡ past state.old (own_scope (block_piece body.now))) }
{
    state.scopes.open(alloc)?;
    let made = block(alloc, body, state)?;
    state.scopes.close(alloc);
    Ok(made)
}

#[cycle(named_statements)]
fn statement<'a>(
    alloc: Global,
    s: &'a RawStmt,
    state: &mut State<'a>,
) -> Result<NamedStmt, NoMemory>
    ensures made { IfOk result (λ made. made ≡ (stmt_piece s.now).made state.old.scopes) }
    ensures past { OnOk result (state.new ≡ past state.old (stmt_piece s.now)) }
{
    let what = kind(alloc, &s.what, state)?;
    Ok(NamedStmt {
        place: s.place,
        what,
    })
}

#[cycle(named_statements)]
fn kind<'a>(
    alloc: Global,
    kind: &'a RawStmtKind,
    state: &mut State<'a>,
) -> Result<NamedStmtKind, NoMemory>
    ensures made { IfOk result (λ made. made ≡ (piece_of_kind kind.now).made state.old.scopes) }
    ensures past { OnOk result (state.new ≡ past state.old (piece_of_kind kind.now)) }
{
    match kind {
        RawStmtKind::Var(name, ty, value) => {
            let value = optional_expr(alloc, value, &state.scopes)?;
            declare(alloc, name, ty, Role::Variable, value, state)
        }
        RawStmtKind::Let(name, ty, value) => {
            let value = expr(alloc, value, &state.scopes)?;
            declare(alloc, name, ty, Role::Fixed, Some(value), state)
        }
        RawStmtKind::Const(one) => Ok(NamedStmtKind::Const(constant(alloc, one, state)?)),
        RawStmtKind::Assign(place, e) => assign(alloc, place, e, &state.scopes),
        RawStmtKind::Call(callee, inputs, outputs) => {
            call(alloc, callee, inputs, outputs, &state.scopes)
        }
        RawStmtKind::Await(e) => Ok(NamedStmtKind::Await(expr(alloc, e, &state.scopes)?)),
        RawStmtKind::Run(place, callee, inputs, outputs) => {
            run(alloc, place, callee, inputs, outputs, &state.scopes)
        }
        RawStmtKind::If(all, other) => {
            let arms = arms(alloc, all, state)?;
            Ok(NamedStmtKind::If(arms, scope(alloc, other, state)?))
        }
        RawStmtKind::Cobegin(all) => Ok(NamedStmtKind::Cobegin(branches(alloc, all, state)?)),
        RawStmtKind::When(guard, e, body) => {
            let test = expr(alloc, e, &state.scopes)?;
            Ok(NamedStmtKind::When(*guard, test, scope(alloc, body, state)?))
        }
        RawStmtKind::Repeat(body) => Ok(NamedStmtKind::Repeat(scope(alloc, body, state)?)),
        RawStmtKind::Until(body, e) => {
            let test = expr(alloc, e, &state.scopes)?;
            Ok(NamedStmtKind::Until(scope(alloc, body, state)?, test))
        }
        RawStmtKind::While(e, body) => {
            let test = expr(alloc, e, &state.scopes)?;
            Ok(NamedStmtKind::While(test, scope(alloc, body, state)?))
        }
        RawStmtKind::Return(e) => {
            Ok(NamedStmtKind::Return(optional_expr(alloc, e, &state.scopes)?))
        }
    }
}

#[cycle(named_statements)]
fn arms<'a>(
    alloc: Global,
    all: &'a [RawArm],
    state: &mut State<'a>,
) -> Result<List<NamedArm>, NoMemory>
    ensures made { IfOk result (λ made. made ≡ (arms_piece all.now).made state.old.scopes) }
    ensures past { OnOk result (state.new ≡ past state.old (arms_piece all.now)) }
{
    let mut made = List::new(alloc);
    for one in all {
        made.push(arm(alloc, one, state)?)?;
    }
    Ok(made)
}

#[cycle(named_statements)]
fn arm<'a>(alloc: Global, arm: &'a RawArm, state: &mut State<'a>) -> Result<NamedArm, NoMemory>
    ensures made { IfOk result (λ made. made ≡ (piece_of_arm arm.now).made state.old.scopes) }
    ensures past { OnOk result (state.new ≡ past state.old (piece_of_arm arm.now)) }
{
    let test = expr(alloc, &arm.test, &state.scopes)?;
    let body = scope(alloc, &arm.body, state)?;
    Ok(NamedArm { test, body })
}

#[cycle(named_statements)]
fn branches<'a>(
    alloc: Global,
    all: &'a [RawBranch],
    state: &mut State<'a>,
) -> Result<List<NamedBranch>, NoMemory>
    ensures made { IfOk result (λ made. made ≡ (branches_piece all.now).made state.old.scopes) }
    ensures past { OnOk result (state.new ≡ past state.old (branches_piece all.now)) }
{
    let mut made = List::new(alloc);
    for one in all {
        made.push(branch(alloc, one, state)?)?;
    }
    Ok(made)
}

#[cycle(named_statements)]
fn branch<'a>(
    alloc: Global,
    branch: &'a RawBranch,
    state: &mut State<'a>,
) -> Result<NamedBranch, NoMemory>
    ensures made { IfOk result (λ made. made ≡ (piece_of_branch branch.now).made state.old.scopes) }
    ensures past { OnOk result (state.new ≡ past state.old (piece_of_branch branch.now)) }
{
    let body = scope(alloc, &branch.body, state)?;
    Ok(NamedBranch {
        weak: branch.weak,
        body,
    })
}
