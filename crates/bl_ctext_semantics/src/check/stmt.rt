//! Statements: the first place where something in them fails, and whether they surely return.
#![tactic(auto, using(crate::proofs::FirstLemmas::places))]

ghost use Rattle.std.specs.Prelude.{◌≡◌, ◌++◌, ◌&&◌, is_some, map, not};
ghost use Rattle.bl_tree.specs.declared.c.CType.TheVariants.{Struct as OfStruct};
ghost use Rattle.bl_ctext_semantics.specs.inner.Checked.{context_of};
ghost use Rattle.bl_ctext_semantics.specs.Faults.{agree as agree_c, assigned_type, block_faults, changes_nothing, declared_before, judged_expr};
ghost use Rattle.bl_ctext_semantics.specs.Faults.{judged_place, unless as fails_unless, condition_faults, faults_in_stmt, first_place, last_returns};
ghost use Rattle.bl_ctext_semantics.specs.Faults.{return_faults, surely_returns as returns_surely};

use crate::check::context::Context;
use crate::check::expr::{judge_call, judge_expr, judge_place};
use crate::check::first::{both, earlier, unless};
use crate::check::types::{Ty, agree};
use bl_tree::c::{CExpr, CPlace, CStmt, CStmtKind};
use bl_tree::{Box, Place, Scalar, Text};

/// Where something in a statement fails first.
#[cycle(statements)]
pub fn judge_stmt<'a>(context: &Context<'_, 'a>, stmt: &'a CStmt, looped: bool) -> Option<Place>
    ensures { result ≡ first_place (faults_in_stmt stmt.now (context_of context.now) looped) }
{
    let at = stmt.place;
    match &stmt.what {
        CStmtKind::Set(place, value) => judge_set(context, place, value, at),
        CStmtKind::Clear(place, name) => judge_clear(context, place, name, at),
        CStmtKind::Call(call) => judge_call(context, call, at).first,
        CStmtKind::If(condition, block, Some(other)) => {
            let other = judge_block(context, other, looped);
            let block = judge_block(context, block, looped);
            earlier(judge_condition(context, condition), earlier(block, other))
        }
        CStmtKind::If(condition, block, None) => {
            let block = judge_block(context, block, looped);
            earlier(judge_condition(context, condition), earlier(block, None))
        }
        CStmtKind::Loop(_, condition, body) => {
            let body = judge_block(context, body, true);
            earlier(judge_condition(context, condition), body)
        }
        CStmtKind::Break => unless(looped, at),
        CStmtKind::Return(value) => judge_return(context, value, at),
    }
}

/// Where something in a block fails first; `looped` says whether it stands in a loop.
#[cycle(statements)]
pub fn judge_block<'a>(context: &Context<'_, 'a>, block: &'a [CStmt], looped: bool) -> Option<Place>
    ensures { result ≡ first_place (block_faults (map faults_in_stmt block.now) (context_of context.now) looped) }
{
    let mut first = None;
    for stmt in block {
        first = earlier(first, judge_stmt(context, stmt, looped));
    }
    first
}

fn judge_set<'a>(
    context: &Context<'_, 'a>,
    place: &'a CPlace,
    value: &'a CExpr,
    at: Place,
) -> Option<Place>
    ensures { let p = judged_place place.now (context_of context.now) at in
        let e = judged_expr value.now (context_of context.now) in
        result ≡ first_place (p.faults ++ (e.faults ++ (fails_unless (agree_c p.ty e.ty) assigned_type at
        ++ fails_unless (not (context.now.is_read_only && p.through)) changes_nothing at))) }
{
    let place = judge_place(context, place, at);
    let value = judge_expr(context, value);
    let handed = both(context.is_read_only, place.through);
    let misfit = earlier(unless(agree(place.ty, value.ty), at), unless(!handed, at));
    earlier(place.first, earlier(value.first, misfit))
}

fn judge_clear<'a>(
    context: &Context<'_, 'a>,
    place: &'a CPlace,
    name: &'a Text,
    at: Place,
) -> Option<Place>
    ensures { let p = judged_place place.now (context_of context.now) at in
        result ≡ first_place (p.faults ++ (fails_unless (is_some ((context_of context.now).structs name.now)) declared_before at
        ++ (fails_unless (agree_c p.ty (Some (OfStruct name.now))) assigned_type at
        ++ fails_unless (not (context.now.is_read_only && p.through)) changes_nothing at))) }
{
    let place = judge_place(context, place, at);
    let handed = both(context.is_read_only, place.through);
    let misfit = earlier(
        unless(agree(place.ty, Some(Ty::Struct(name.as_str()))), at),
        unless(!handed, at),
    );
    earlier(
        place.first,
        earlier(unless(context.is_struct(name), at), misfit),
    )
}

fn judge_condition<'a>(context: &Context<'_, 'a>, condition: &'a CExpr) -> Option<Place>
    ensures { result ≡ first_place (condition_faults condition.now (context_of context.now)) }
{
    let judged = judge_expr(context, condition);
    earlier(
        judged.first,
        unless(
            agree(judged.ty, Some(Ty::Scalar(Scalar::Bool))),
            condition.place,
        ),
    )
}

fn judge_return<'a>(
    context: &Context<'_, 'a>,
    value: &'a Option<Box<CExpr>>,
    at: Place,
) -> Option<Place>
    ensures { result ≡ first_place (return_faults value.now context.now.result (context_of context.now) at) }
{
    match (value, context.result) {
        (None, None) => None,
        (None, Some(_)) => Some(at),
        (Some(value), None) => earlier(judge_expr(context, value).first, Some(at)),
        (Some(value), Some(scalar)) => {
            let judged = judge_expr(context, value);
            earlier(
                judged.first,
                unless(agree(judged.ty, Some(Ty::Scalar(scalar))), value.place),
            )
        }
    }
}

/// Whether a statement surely returns: a `return`, or an `if` with `else` whose two blocks surely return.
#[cycle(returning)]
fn surely_returns(stmt: &CStmt) -> bool
    ensures { result ≡ returns_surely stmt.now }
{
    match &stmt.what {
        CStmtKind::Return(_) => true,
        CStmtKind::If(_, block, Some(other)) => {
            let first = block_returns(block);
            both(first, block_returns(other))
        }
        _ => false,
    }
}

/// Whether the last statement of a block surely returns.
#[cycle(returning)]
pub fn block_returns(block: &[CStmt]) -> bool
    ensures { result ≡ last_returns (map returns_surely block.now) }
{
    let mut returns = false;
    for stmt in block {
        returns = surely_returns(stmt);
    }
    returns
}
