//! Types, expressions, targets and paths with positions in place of names.

ghost use Rattle.std.specs.Prelude.{◌≡◌, IfOk, map, option_map};
ghost use Rattle.bl_names.specs.Naming.{named_expr, named_length, named_path, named_root, named_step, named_target, named_type, position};

use bl_names_scopes::kind::Kind;
use bl_names_scopes::scopes::Scopes;
use bl_names_tree::expr::{NamedExpr, NamedExprKind, NamedPart, NamedTarget, Root};
use bl_names_tree::stmt::NamedPath;
use bl_names_tree::types::{NamedLength, NamedType};
use bl_parse_tree::expr::{RawExpr, RawExprKind, RawPart, RawTarget};
use bl_parse_tree::name::Name;
use bl_parse_tree::stmt::RawPath;
use bl_parse_tree::types::{RawLength, RawType};
use bl_tree::{Box, List, NoMemory, Text};
use std::alloc::Global;

/// The position of what a name stands for.
pub fn position(scopes: &Scopes<'_>, name: &Name) -> u32
    ensures { result ≡ position scopes.now name.now }
{
    match scopes.find(&name.text) {
        Some(declaration) => declaration.position,
        None => 0,
    }
}

fn root(scopes: &Scopes<'_>, name: &Name) -> Root
    ensures { result ≡ named_root scopes.now name.now }
{
    match scopes.find(&name.text) {
        Some(declaration) => match declaration.kind {
            Kind::Constant => Root::Constant(declaration.position),
            _ => Root::Variable(declaration.position),
        },
        None => Root::Variable(0),
    }
}

pub fn copy_of(alloc: Global, name: &Name) -> Result<Name, NoMemory>
    ensures { IfOk result (λ copy. copy ≡ name.now) }
{
    Ok(Name {
        text: Text::copy_of(alloc, &name.text)?,
        place: name.place,
    })
}

pub fn copies(alloc: Global, names: &[Name]) -> Result<List<Name>, NoMemory>
    ensures { IfOk result (λ made. made ≡ names.now) }
{
    let mut made = List::new(alloc);
    for name in names {
        made.push(copy_of(alloc, name)?)?;
    }
    Ok(made)
}

pub fn ty(alloc: Global, ty: &RawType, scopes: &Scopes<'_>) -> Result<NamedType, NoMemory>
    ensures { IfOk result (λ made. made ≡ named_type scopes.now ty.now) }
{
    match ty {
        RawType::Scalar(scalar) => Ok(NamedType::Scalar(*scalar)),
        RawType::Struct(name) => Ok(NamedType::Struct(position(scopes, name))),
        RawType::Array(n, element) => {
            let element = crate::expr::ty(alloc, element, scopes)?;
            Ok(NamedType::Array(length(n, scopes), Box::new(alloc, element)?))
        }
    }
}

fn length(n: &RawLength, scopes: &Scopes<'_>) -> NamedLength
    ensures { result ≡ named_length scopes.now n.now }
{
    match n {
        RawLength::Number(n) => NamedLength::Number(*n),
        RawLength::Constant(name) => NamedLength::Constant(name.place, position(scopes, name)),
    }
}

#[cycle(named_expressions)]
pub fn expr(alloc: Global, e: &RawExpr, scopes: &Scopes<'_>) -> Result<NamedExpr, NoMemory>
    ensures { IfOk result (λ made. made ≡ named_expr scopes.now e.now) }
{
    let what = match &e.what {
        RawExprKind::Number(minus, n) => NamedExprKind::Number(*minus, *n),
        RawExprKind::Truth(truth) => NamedExprKind::Truth(*truth),
        RawExprKind::Read(place) => NamedExprKind::Read(target(alloc, place, scopes)?),
        RawExprKind::Prev(name) => NamedExprKind::Prev(position(scopes, name)),
        RawExprKind::One(op, a) => {
            let a = expr(alloc, a, scopes)?;
            NamedExprKind::One(*op, Box::new(alloc, a)?)
        }
        RawExprKind::Two(op, a, b) => {
            let a = expr(alloc, a, scopes)?;
            let b = expr(alloc, b, scopes)?;
            NamedExprKind::Two(*op, Box::new(alloc, a)?, Box::new(alloc, b)?)
        }
        RawExprKind::Cast(scalar, a) => {
            let a = expr(alloc, a, scopes)?;
            NamedExprKind::Cast(*scalar, Box::new(alloc, a)?)
        }
        RawExprKind::Call(name, inputs) => {
            let inputs = exprs(alloc, inputs, scopes)?;
            NamedExprKind::Call(name.place, position(scopes, name), inputs)
        }
    };
    Ok(NamedExpr {
        place: e.place,
        what,
    })
}

#[cycle(named_expressions)]
pub fn exprs(
    alloc: Global,
    all: &[RawExpr],
    scopes: &Scopes<'_>,
) -> Result<List<NamedExpr>, NoMemory>
    ensures { IfOk result (λ made. made ≡ map (named_expr scopes.now) all.now) }
{
    let mut made = List::new(alloc);
    for e in all {
        made.push(expr(alloc, e, scopes)?)?;
    }
    Ok(made)
}

#[cycle(named_expressions)]
pub fn target(
    alloc: Global,
    target: &RawTarget,
    scopes: &Scopes<'_>,
) -> Result<NamedTarget, NoMemory>
    ensures { IfOk result (λ made. made ≡ named_target scopes.now target.now) }
{
    Ok(NamedTarget {
        place: target.place,
        root: root(scopes, &target.root),
        parts: parts(alloc, &target.parts, scopes)?,
    })
}

#[cycle(named_expressions)]
fn parts(alloc: Global, all: &[RawPart], scopes: &Scopes<'_>) -> Result<List<NamedPart>, NoMemory>
    ensures { IfOk result (λ made. made ≡ map (named_step scopes.now) all.now) }
{
    let mut made = List::new(alloc);
    for one in all {
        made.push(part(alloc, one, scopes)?)?;
    }
    Ok(made)
}

#[cycle(named_expressions)]
fn part(alloc: Global, part: &RawPart, scopes: &Scopes<'_>) -> Result<NamedPart, NoMemory>
    ensures { IfOk result (λ made. made ≡ named_step scopes.now part.now) }
{
    match part {
        RawPart::Field(name) => Ok(NamedPart::Field(copy_of(alloc, name)?)),
        RawPart::Index(e) => Ok(NamedPart::Index(expr(alloc, e, scopes)?)),
    }
}

pub fn optional_ty(
    alloc: Global,
    ty: &Option<RawType>,
    scopes: &Scopes<'_>,
) -> Result<Option<NamedType>, NoMemory>
    ensures { IfOk result (λ made. made ≡ option_map (named_type scopes.now) ty.now) }
{
    match ty {
        Some(ty) => Ok(Some(crate::expr::ty(alloc, ty, scopes)?)),
        None => Ok(None),
    }
}

pub fn optional_expr(
    alloc: Global,
    e: &Option<RawExpr>,
    scopes: &Scopes<'_>,
) -> Result<Option<NamedExpr>, NoMemory>
    ensures { IfOk result (λ made. made ≡ option_map (named_expr scopes.now) e.now) }
{
    match e {
        Some(e) => Ok(Some(expr(alloc, e, scopes)?)),
        None => Ok(None),
    }
}

pub fn path(alloc: Global, path: &RawPath, scopes: &Scopes<'_>) -> Result<NamedPath, NoMemory>
    ensures { IfOk result (λ made. made ≡ named_path scopes.now path.now) }
{
    Ok(NamedPath {
        place: path.place,
        root: position(scopes, &path.root),
        fields: copies(alloc, &path.fields)?,
    })
}

pub fn paths(
    alloc: Global,
    all: &[RawPath],
    scopes: &Scopes<'_>,
) -> Result<List<NamedPath>, NoMemory>
    ensures { IfOk result (λ made. made ≡ map (named_path scopes.now) all.now) }
{
    let mut made = List::new(alloc);
    for one in all {
        made.push(path(alloc, one, scopes)?)?;
    }
    Ok(made)
}

pub fn optional_path(
    alloc: Global,
    path: &Option<RawPath>,
    scopes: &Scopes<'_>,
) -> Result<Option<NamedPath>, NoMemory>
    ensures { IfOk result (λ made. made ≡ option_map (named_path scopes.now) path.now) }
{
    match path {
        Some(path) => Ok(Some(crate::expr::path(alloc, path, scopes)?)),
        None => Ok(None),
    }
}
