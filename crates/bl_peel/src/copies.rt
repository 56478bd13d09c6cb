//! Copies of types, expressions, paths and statements. Each fails only for want of memory.

ghost use Rattle.std.specs.Prelude.{◌≡◌, IfOk, IsTrue};
ghost use Rattle.bl_peel.specs.inner.Parts.{has_no_block};

use bl_tree::tree::{Arm, Branch, Expr, ExprKind, Part, Path, Stmt, StmtKind, Ty};
use bl_tree::{Box, List, NoMemory};
use std::alloc::Global;

/// The same type once more.
pub fn ty_of(alloc: Global, ty: &Ty) -> Result<Ty, NoMemory>
    ensures { IfOk result (λ copy. copy ≡ ty.now) }
{
    match ty {
        Ty::Scalar(scalar) => Ok(Ty::Scalar(*scalar)),
        Ty::Struct(k) => Ok(Ty::Struct(*k)),
        Ty::Array(n, element) => {
            let element = ty_of(alloc, element)?;
            Ok(Ty::Array(*n, Box::new(alloc, element)?))
        }
    }
}

/// The same expression once more.
#[cycle(copies)]
pub fn expr(alloc: Global, e: &Expr) -> Result<Expr, NoMemory>
    ensures { IfOk result (λ copy. copy ≡ e.now) }
{
    let what = expr_kind(alloc, &e.what)?;
    Ok(Expr {
        place: e.place,
        what,
    })
}

#[cycle(copies)]
fn expr_kind(alloc: Global, what: &ExprKind) -> Result<ExprKind, NoMemory>
    ensures { IfOk result (λ copy. copy ≡ what.now) }
{
    match what {
        ExprKind::Literal(n, scalar) => Ok(ExprKind::Literal(*n, *scalar)),
        ExprKind::Read(read) => Ok(ExprKind::Read(path(alloc, read)?)),
        ExprKind::Prev(k) => Ok(ExprKind::Prev(*k)),
        ExprKind::One(op, a) => {
            let a = expr(alloc, a)?;
            Ok(ExprKind::One(*op, Box::new(alloc, a)?))
        }
        ExprKind::Two(op, a, b) => {
            let a = expr(alloc, a)?;
            let b = expr(alloc, b)?;
            Ok(ExprKind::Two(*op, Box::new(alloc, a)?, Box::new(alloc, b)?))
        }
        ExprKind::Cast(scalar, a) => {
            let a = expr(alloc, a)?;
            Ok(ExprKind::Cast(*scalar, Box::new(alloc, a)?))
        }
        ExprKind::Call(f, inputs) => Ok(ExprKind::Call(*f, exprs(alloc, inputs)?)),
    }
}

#[cycle(copies)]
fn exprs(alloc: Global, all: &[Expr]) -> Result<List<Expr>, NoMemory>
    ensures { IfOk result (λ copies. copies ≡ all.now) }
{
    let mut copies = List::new(alloc);
    for e in all {
        copies.push(expr(alloc, e)?)?;
    }
    Ok(copies)
}

#[cycle(copies)]
fn path(alloc: Global, path: &Path) -> Result<Path, NoMemory>
    ensures { IfOk result (λ copy. copy ≡ path.now) }
{
    let parts = parts(alloc, &path.parts)?;
    let ty = ty_of(alloc, &path.ty)?;
    Ok(Path {
        place: path.place,
        root: path.root,
        parts,
        ty,
    })
}

#[cycle(copies)]
fn parts(alloc: Global, all: &[Part]) -> Result<List<Part>, NoMemory>
    ensures { IfOk result (λ copies. copies ≡ all.now) }
{
    let mut copies = List::new(alloc);
    for one in all {
        copies.push(part(alloc, one)?)?;
    }
    Ok(copies)
}

#[cycle(copies)]
fn part(alloc: Global, part: &Part) -> Result<Part, NoMemory>
    ensures { IfOk result (λ copy. copy ≡ part.now) }
{
    match part {
        Part::Field(k) => Ok(Part::Field(*k)),
        Part::Index(e) => Ok(Part::Index(expr(alloc, e)?)),
    }
}

fn paths(alloc: Global, all: &[Path]) -> Result<List<Path>, NoMemory>
    ensures { IfOk result (λ copies. copies ≡ all.now) }
{
    let mut copies = List::new(alloc);
    for one in all {
        copies.push(path(alloc, one)?)?;
    }
    Ok(copies)
}

fn optional_expr(alloc: Global, e: &Option<Expr>) -> Result<Option<Expr>, NoMemory>
    ensures { IfOk result (λ copy. copy ≡ e.now) }
{
    match e {
        Some(e) => Ok(Some(expr(alloc, e)?)),
        None => Ok(None),
    }
}

fn optional_path(alloc: Global, target: &Option<Path>) -> Result<Option<Path>, NoMemory>
    ensures { IfOk result (λ copy. copy ≡ target.now) }
{
    match target {
        Some(target) => Ok(Some(path(alloc, target)?)),
        None => Ok(None),
    }
}

fn assign(alloc: Global, target: &Path, e: &Expr) -> Result<StmtKind, NoMemory>
    ensures { IfOk result (λ copy. copy ≡ StmtKind.Assign target.now e.now) }
{
    let target = path(alloc, target)?;
    Ok(StmtKind::Assign(target, expr(alloc, e)?))
}

fn call(alloc: Global, callee: u32, inputs: &[Expr], outputs: &[Path]) -> Result<StmtKind, NoMemory>
    ensures { IfOk result (λ copy. copy ≡ StmtKind.Call callee inputs.now outputs.now) }
{
    let inputs = exprs(alloc, inputs)?;
    Ok(StmtKind::Call(callee, inputs, paths(alloc, outputs)?))
}

fn run(
    alloc: Global,
    target: &Option<Path>,
    callee: u32,
    inputs: &[Expr],
    outputs: &[Path],
) -> Result<StmtKind, NoMemory>
    ensures { IfOk result (λ copy. copy ≡ StmtKind.Run target.now callee inputs.now outputs.now) }
{
    let target = optional_path(alloc, target)?;
    let inputs = exprs(alloc, inputs)?;
    Ok(StmtKind::Run(target, callee, inputs, paths(alloc, outputs)?))
}

/// The same once more, of a statement that has no blocks.
pub fn without_block(alloc: Global, what: &StmtKind) -> Result<StmtKind, NoMemory>
    requires { IsTrue (has_no_block what.now) }
    ensures { IfOk result (λ copy. copy ≡ what.now) }
{
    match what {
        StmtKind::Declare(k, initial) => {
            Ok(StmtKind::Declare(*k, optional_expr(alloc, initial)?))
        }
        StmtKind::Assign(target, e) => assign(alloc, target, e),
        StmtKind::Call(callee, inputs, outputs) => call(alloc, *callee, inputs, outputs),
        StmtKind::Await(e) => Ok(StmtKind::Await(expr(alloc, e)?)),
        StmtKind::Run(target, callee, inputs, outputs) => {
            run(alloc, target, *callee, inputs, outputs)
        }
        StmtKind::Return(e) => Ok(StmtKind::Return(optional_expr(alloc, e)?)),
        StmtKind::If(_, _) => unreachable!(),
        StmtKind::Cobegin(_) => unreachable!(),
        StmtKind::When(_, _, _) => unreachable!(),
        StmtKind::Repeat(_) => unreachable!(),
        StmtKind::Until(_, _) => unreachable!(),
        StmtKind::While(_, _) => unreachable!(),
    }
}

/// The same statements once more, with what stands in them.
#[cycle(blocks)]
pub fn block(alloc: Global, body: &[Stmt]) -> Result<List<Stmt>, NoMemory>
    ensures { IfOk result (λ copies. copies ≡ body.now) }
{
    let mut copies = List::new(alloc);
    for s in body {
        copies.push(statement(alloc, s)?)?;
    }
    Ok(copies)
}

#[cycle(blocks)]
fn statement(alloc: Global, s: &Stmt) -> Result<Stmt, NoMemory>
    ensures { IfOk result (λ copy. copy ≡ s.now) }
{
    let what = kind(alloc, &s.what)?;
    Ok(Stmt {
        place: s.place,
        what,
    })
}

#[cycle(blocks)]
fn kind(alloc: Global, what: &StmtKind) -> Result<StmtKind, NoMemory>
    ensures { IfOk result (λ copy. copy ≡ what.now) }
{
    match what {
        StmtKind::Declare(_, _)
        | StmtKind::Assign(_, _)
        | StmtKind::Call(_, _, _)
        | StmtKind::Await(_)
        | StmtKind::Run(_, _, _, _)
        | StmtKind::Return(_) => without_block(alloc, what),
        StmtKind::If(arms, other) => {
            let arms = copies_of_arms(alloc, arms)?;
            Ok(StmtKind::If(arms, block(alloc, other)?))
        }
        StmtKind::Cobegin(branches) => Ok(StmtKind::Cobegin(copies_of_branches(alloc, branches)?)),
        StmtKind::When(guard, e, body) => {
            let e = expr(alloc, e)?;
            Ok(StmtKind::When(*guard, e, block(alloc, body)?))
        }
        StmtKind::Repeat(body) => Ok(StmtKind::Repeat(block(alloc, body)?)),
        StmtKind::Until(body, e) => {
            let e = expr(alloc, e)?;
            Ok(StmtKind::Until(block(alloc, body)?, e))
        }
        StmtKind::While(e, body) => {
            let e = expr(alloc, e)?;
            Ok(StmtKind::While(e, block(alloc, body)?))
        }
    }
}

#[cycle(blocks)]
fn copies_of_arms(alloc: Global, arms: &[Arm]) -> Result<List<Arm>, NoMemory>
    ensures { IfOk result (λ copies. copies ≡ arms.now) }
{
    let mut copies = List::new(alloc);
    for arm in arms {
        copies.push(copy_of_arm(alloc, arm)?)?;
    }
    Ok(copies)
}

#[cycle(blocks)]
fn copy_of_arm(alloc: Global, arm: &Arm) -> Result<Arm, NoMemory>
    ensures { IfOk result (λ copy. copy ≡ arm.now) }
{
    let test = expr(alloc, &arm.test)?;
    let body = block(alloc, &arm.body)?;
    Ok(Arm { test, body })
}

#[cycle(blocks)]
fn copies_of_branches(alloc: Global, branches: &[Branch]) -> Result<List<Branch>, NoMemory>
    ensures { IfOk result (λ copies. copies ≡ branches.now) }
{
    let mut copies = List::new(alloc);
    for branch in branches {
        copies.push(copy_of_branch(alloc, branch)?)?;
    }
    Ok(copies)
}

#[cycle(blocks)]
fn copy_of_branch(alloc: Global, branch: &Branch) -> Result<Branch, NoMemory>
    ensures { IfOk result (λ copy. copy ≡ branch.now) }
{
    let body = block(alloc, &branch.body)?;
    Ok(Branch {
        weak: branch.weak,
        body,
    })
}
