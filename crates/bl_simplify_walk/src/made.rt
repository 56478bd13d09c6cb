//! New statements, and blocks that begin with them.

ghost use Rattle.std.specs.Prelude.{◌≡◌, ◌++◌, IfOk};
ghost use Rattle.bl_simplify_laws.specs.Written.{loop_stmt};
ghost use Rattle.bl_simplify_walk.specs.Blocks.{in_turn};
ghost use Rattle.bl_simplify_walk.specs.Forms.{KeepsTo, SplitsTo};

use crate::front::Front;
use crate::joins::if_before;
use crate::parts::Turns;
use crate::rules::{kept_forms, split_forms};
use crate::weight::weight_in_split;
use bl_simplify_facts::{copy, copy_stmt};
use bl_tree::c::{CExpr, CStmt, CStmtKind};
use bl_tree::place::Place;
use bl_tree::{Box, NoMemory, Text};
use std::alloc::Global;

/// The loop with another body.
pub fn loop_of(alloc: Global, it: &Turns<'_>, body: Front) -> Result<CStmt, NoMemory>
    ensures { IfOk result (λ made. made ≡ loop_stmt it.now.place it.now.turn.now it.now.condition.now body) }
{
    let turn = Text::copy_of(alloc, it.turn)?;
    let condition = Box::new(alloc, copy::expr(alloc, it.condition)?)?;
    let what = CStmtKind::Loop(turn, condition, body.finish());
    Ok(CStmt {
        place: it.place,
        what,
    })
}

/// The `if` on a test, whose branches hold what followed it.
pub fn split_of(
    alloc: Global,
    place: Place,
    test: CExpr,
    new: Front,
    others: Front,
) -> Result<Front, NoMemory>
    ensures { IfOk result (λ made. SplitsTo test new others made) }
{
    split_forms();
    if_before(alloc, place, test, new, others, Front::new(alloc))
}

/// The `if` on a test before what follows it.
pub fn kept_of(
    alloc: Global,
    place: Place,
    test: CExpr,
    new: Front,
    others: Front,
    following: Front,
) -> Result<Front, NoMemory>
    ensures { IfOk result (λ made. KeepsTo test new others following made) }
{
    kept_forms();
    if_before(alloc, place, test, new, others, following)
}

/// A block as it stands, before another one.
fn with_copies(alloc: Global, block: &[CStmt], rest: Front) -> Result<Front, NoMemory>
    ensures { IfOk result (λ made. made ≡ block.now ++ rest) }
{
    let mut made = rest;
    for k in (0..block.len()).rev() {
        let weight = weight_in_split(&block[k]);
        made = made.after(copy_stmt::stmt(alloc, &block[k])?, weight)?;
    }
    Ok(made)
}

/// Blocks as they stand: one, and those that follow it, of which the next one is the last.
pub fn copies(alloc: Global, block: &[CStmt], rest: &[&[CStmt]]) -> Result<Front, NoMemory>
    ensures { IfOk result (λ made. made ≡ block.now ++ in_turn (λ b. b.now) rest.now) }
{
    let mut made = Front::new(alloc);
    for following in rest {
        made = with_copies(alloc, following, made)?;
    }
    with_copies(alloc, block, made)
}
