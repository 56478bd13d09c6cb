//! Blocks without assignments to variables that nothing reads.

ghost use Rattle.std.specs.Prelude.{◌≡◌, ◌∷◌, ◌++◌, [], IfOk, OnOk};
ghost use Rattle.bl_ctext_semantics.specs.inner.Maps.{text_at};
ghost use Rattle.bl_simplify_laws.specs.Splits.{if_stmt};
ghost use Rattle.bl_simplify_laws.specs.Written.{loop_stmt};
ghost use Rattle.bl_simplify_walk.specs.Forms.{else_of as c_else};
ghost use Rattle.bl_simplify_live.specs.Reads.{LivesAs, SameAside, if_there};

use crate::reads::{Names, has_all_read, names_of};
use crate::unread::is_dead;
use crate::wanted::{DEEPEST, wanted};
use bl_simplify_facts::copy::expr;
use bl_simplify_facts::copy_stmt::{block as copy_of_block, stmt as copy_of};
use bl_simplify_facts::told::is_total;
use bl_simplify_laws::live::{live_blocks, live_stmts};
use bl_simplify_walk::parts::{Branches, Turns, branch_of, branches_of, turns_of};
use bl_tree::c::{CExpr, CStmt, CStmtKind};
use bl_tree::place::Place;
use bl_tree::{Box, List, NoMemory, Text};
use std::alloc::Global;

/// The `else` with these statements, absent where there are none.
fn else_of(others: List<CStmt>) -> Option<List<CStmt>>
    ensures { result ≡ c_else others }
{
    if others.is_empty() {
        return None;
    }
    Some(others)
}

/// The `if` of two blocks.
fn if_of(
    alloc: Global,
    at: Place,
    condition: &CExpr,
    block: List<CStmt>,
    other: List<CStmt>,
) -> Result<CStmt, NoMemory>
    ensures { IfOk result (λ made. made ≡ if_stmt at condition.now block (c_else other)) }
{
    let condition = Box::new(alloc, expr(alloc, condition)?)?;
    let what = CStmtKind::If(condition, block, else_of(other));
    Ok(CStmt { place: at, what })
}

/// The loop with another body.
fn loop_of(alloc: Global, it: &Turns<'_>, body: List<CStmt>) -> Result<CStmt, NoMemory>
    ensures { IfOk result (λ made. made ≡ loop_stmt it.now.place it.now.turn.now it.now.condition.now body) }
{
    let turn = Text::copy_of(alloc, it.turn)?;
    let condition = Box::new(alloc, expr(alloc, it.condition)?)?;
    let what = CStmtKind::Loop(turn, condition, body);
    Ok(CStmt {
        place: it.place,
        what,
    })
}

/// An `if` without what is dead in it, or nothing.
#[cycle(dropping)]
fn live_if(
    alloc: Global,
    fuel: usize,
    read: &Names<'_>,
    it: &Branches<'_>,
) -> Result<Option<CStmt>, NoMemory>
    ensures { IfOk result (λ new. LivesAs (text_at read.now) (if_stmt it.now.place it.now.condition.now it.now.block.now it.now.other.now ∷ []) (if_there new)) }
{
    live_stmts();
    let block = live_block(alloc, fuel, read, it.block)?;
    let other = live_block(alloc, fuel, read, branch_of(it.other))?;
    if block.is_empty() && other.is_empty() && is_total(it.condition) {
        return Ok(None);
    }
    Ok(Some(if_of(alloc, it.place, it.condition, block, other)?))
}

/// A loop without what is dead in it.
#[cycle(dropping)]
fn live_loop(
    alloc: Global,
    fuel: usize,
    read: &Names<'_>,
    it: &Turns<'_>,
) -> Result<CStmt, NoMemory>
    ensures { IfOk result (λ new. LivesAs (text_at read.now) (loop_stmt it.now.place it.now.turn.now it.now.condition.now it.now.body.now ∷ []) (new ∷ [])) }
{
    live_stmts();
    let body = live_block(alloc, fuel, read, it.body)?;
    loop_of(alloc, it, body)
}

/// A statement without what is dead in it, or nothing.
#[cycle(dropping)]
fn live_stmt(
    alloc: Global,
    fuel: usize,
    read: &Names<'_>,
    stmt: &CStmt,
) -> Result<Option<CStmt>, NoMemory>
    ensures { IfOk result (λ new. LivesAs (text_at read.now) (stmt.now ∷ []) (if_there new)) }
{
    live_stmts();
    if let Some(it) = branches_of(stmt) {
        return live_if(alloc, fuel, read, &it);
    }
    if let Some(it) = turns_of(stmt) {
        return Ok(Some(live_loop(alloc, fuel, read, &it)?));
    }
    if is_dead(read, stmt) {
        return Ok(None);
    }
    Ok(Some(copy_of(alloc, stmt)?))
}

/// A statement and those after it.
fn with_front(alloc: Global, new: &mut List<CStmt>, first: Option<CStmt>) -> Result<(), NoMemory>
    ensures { OnOk result (new.new ≡ new.old ++ if_there first) }
{
    let _alloc = alloc;
    match first {
        Some(stmt) => Ok(new.push(stmt)?),
        None => Ok(()),
    }
}

/// A block without what is dead in it. With no fuel left it is copied.
#[cycle(dropping)]
fn live_block(
    alloc: Global,
    fuel: usize,
    read: &Names<'_>,
    block: &[CStmt],
) -> Result<List<CStmt>, NoMemory>
    ensures { IfOk result (LivesAs (text_at read.now) block.now) }
{
    live_blocks();
    live_stmts();
    if fuel == 0 {
        return copy_of_block(alloc, block);
    }
    let mut new = List::new(alloc);
    for stmt in block {
        let kept = live_stmt(alloc, fuel - 1, read, stmt)?;
        with_front(alloc, &mut new, kept)?;
    }
    Ok(new)
}

/// A function's body without assignments to variables that nothing reads but such assignments. Fails only for want of memory.
pub fn without_dead(alloc: Global, body: &[CStmt]) -> Result<List<CStmt>, NoMemory>
    ensures { IfOk result (SameAside body.now) }
{
    live_blocks();
    live_stmts();
    let places = wanted(alloc, body)?;
    let read = names_of(alloc, &places)?;
    let new = live_block(alloc, DEEPEST, &read, body)?;
    if has_all_read(alloc, &read, &new)? {
        return Ok(new);
    }
    copy_of_block(alloc, body)
}
