//! The names that types, expressions, targets and paths use.
#![tactic(auto, using(crate::proofs::WalkLemmas::walks))]

ghost use Rattle.std.specs.Prelude.{◌≡◌, map};
ghost use Rattle.bl_tree.specs.Reduce.{joined};
ghost use Rattle.bl_names_scopes.specs.inner.Judged.{judged_by};
ghost use Rattle.bl_names_scopes.specs.Marks.{expr_marks, length_marks, marks_of_part, optional, path_marks, target_marks, type_marks};

use crate::judge::Judge;
use crate::kind::Wanted;
use bl_parse_tree::expr::{RawExpr, RawExprKind, RawPart, RawTarget};
use bl_parse_tree::stmt::RawPath;
use bl_parse_tree::types::{RawLength, RawType};

pub fn ty(ty: &RawType, judge: &mut Judge<'_>)
    ensures { judge.new ≡ judged_by judge.old (type_marks ty.now) }
{
    match ty {
        RawType::Scalar(_) => {}
        RawType::Struct(name) => judge.see(name, Wanted::Type),
        RawType::Array(n, element) => {
            length(n, judge);
            crate::expr::ty(element, judge);
        }
    }
}

fn length(n: &RawLength, judge: &mut Judge<'_>)
    ensures { judge.new ≡ judged_by judge.old (length_marks n.now) }
{
    match n {
        RawLength::Number(_) => {}
        RawLength::Constant(name) => judge.see(name, Wanted::Length),
    }
}

pub fn optional_ty(ty: &Option<RawType>, judge: &mut Judge<'_>)
    ensures { judge.new ≡ judged_by judge.old (optional type_marks ty.now) }
{
    if let Some(ty) = ty {
        crate::expr::ty(ty, judge);
    }
}

#[cycle(expressions)]
pub fn expr(e: &RawExpr, judge: &mut Judge<'_>)
    ensures { judge.new ≡ judged_by judge.old (expr_marks e.now) }
{
    match &e.what {
        RawExprKind::Number(_, _) | RawExprKind::Truth(_) => {}
        RawExprKind::Read(place) => target(place, Wanted::Value, judge),
        RawExprKind::Prev(name) => judge.see(name, Wanted::Variable),
        RawExprKind::One(_, a) | RawExprKind::Cast(_, a) => expr(a, judge),
        RawExprKind::Two(_, a, b) => {
            expr(a, judge);
            expr(b, judge);
        }
        RawExprKind::Call(name, inputs) => {
            judge.see(name, Wanted::Function);
            exprs(inputs, judge);
        }
    }
}

#[cycle(expressions)]
pub fn exprs(all: &[RawExpr], judge: &mut Judge<'_>)
    ensures { judge.new ≡ judged_by judge.old (joined (map expr_marks all.now)) }
{
    for e in all {
        expr(e, judge);
    }
}

/// A target, where this is wanted of its first name.
#[cycle(expressions)]
pub fn target(target: &RawTarget, wanted: Wanted, judge: &mut Judge<'_>)
    ensures { judge.new ≡ judged_by judge.old (target_marks target.now wanted) }
{
    judge.see(&target.root, wanted);
    parts(&target.parts, judge);
}

#[cycle(expressions)]
fn parts(all: &[RawPart], judge: &mut Judge<'_>)
    ensures { judge.new ≡ judged_by judge.old (joined (map marks_of_part all.now)) }
{
    for one in all {
        part(one, judge);
    }
}

#[cycle(expressions)]
fn part(part: &RawPart, judge: &mut Judge<'_>)
    ensures { judge.new ≡ judged_by judge.old (marks_of_part part.now) }
{
    match part {
        RawPart::Field(_) => {}
        RawPart::Index(e) => expr(e, judge),
    }
}

pub fn optional_expr(e: &Option<RawExpr>, judge: &mut Judge<'_>)
    ensures { judge.new ≡ judged_by judge.old (optional expr_marks e.now) }
{
    if let Some(e) = e {
        expr(e, judge);
    }
}

pub fn path(path: &RawPath, judge: &mut Judge<'_>)
    ensures { judge.new ≡ judged_by judge.old (path_marks path.now) }
{
    judge.see(&path.root, Wanted::Variable)
}

pub fn paths(all: &[RawPath], judge: &mut Judge<'_>)
    ensures { judge.new ≡ judged_by judge.old (joined (map path_marks all.now)) }
{
    for one in all {
        path(one, judge);
    }
}

pub fn optional_path(path: &Option<RawPath>, judge: &mut Judge<'_>)
    ensures { judge.new ≡ judged_by judge.old (optional path_marks path.now) }
{
    if let Some(path) = path {
        crate::expr::path(path, judge);
    }
}
