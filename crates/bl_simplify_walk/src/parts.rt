//! Statements taken apart, and the blocks that follow.

ghost use Rattle.std.specs.Prelude.{◌≡◌, ◌++◌, IfOk, MatchOption, true};
ghost use Rattle.bl_simplify_laws.specs.Splits.{branch, if_stmt};
ghost use Rattle.bl_simplify_laws.specs.Steps.{set_stmt};
ghost use Rattle.bl_simplify_laws.specs.Written.{loop_stmt};
ghost use Rattle.bl_simplify_facts.specs.Entries.{facts_of};
ghost use Rattle.bl_simplify_walk.specs.Blocks.{IsSkipped, in_turn};

use crate::weight::weight_of_stmt;
use bl_simplify_facts::entries::Case;
use bl_simplify_steps::steps::sets_nothing;
use bl_tree::c::{CExpr, CPlace, CStmt, CStmtKind};
use bl_tree::place::Place;
use bl_tree::{List, Text};
use std::alloc::{AllocError, Global};

/// An `if`, as a whole and in its parts.
#[derive(Clone, Copy)]
pub struct Branches<'a> {
    pub whole: &'a CStmt,
    pub place: Place,
    pub condition: &'a CExpr,
    pub block: &'a [CStmt],
    pub other: &'a Option<List<CStmt>>,
}

/// A loop in its parts.
#[derive(Clone, Copy)]
pub struct Turns<'a> {
    pub place: Place,
    pub turn: &'a Text,
    pub condition: &'a CExpr,
    pub body: &'a [CStmt],
}

/// An assignment in its parts.
#[derive(Clone, Copy)]
pub struct Assignment<'a> {
    pub place: Place,
    pub at: &'a CPlace,
    pub value: &'a CExpr,
}

/// The parts of a statement that is an `if`.
pub fn branches_of(stmt: &CStmt) -> Option<Branches<'_>>
    ensures { MatchOption result (Unit {0}) (λ it. (stmt.now ≡ if_stmt it.place it.condition.now it.block.now it.other.now) × (it.whole.now ≡ stmt.now)) }
{
    match &stmt.what {
        CStmtKind::If(condition, block, other) => Some(Branches {
            whole: stmt,
            place: stmt.place,
            condition,
            block,
            other,
        }),
        _ => None,
    }
}

/// The parts of a statement that is a loop.
pub fn turns_of(stmt: &CStmt) -> Option<Turns<'_>>
    ensures { MatchOption result (Unit {0}) (λ it. stmt.now ≡ loop_stmt it.place it.turn.now it.condition.now it.body.now) }
{
    match &stmt.what {
        CStmtKind::Loop(turn, condition, body) => Some(Turns {
            place: stmt.place,
            turn,
            condition,
            body,
        }),
        _ => None,
    }
}

/// The parts of a statement that is an assignment.
pub fn assignment_of(stmt: &CStmt) -> Option<Assignment<'_>>
    ensures { MatchOption result (Unit {0}) (λ it. stmt.now ≡ set_stmt it.place it.at.now it.value.now) }
{
    match &stmt.what {
        CStmtKind::Set(at, value) => Some(Assignment {
            place: stmt.place,
            at,
            value,
        }),
        _ => None,
    }
}

/// The statements of a branch, none where it is absent.
pub fn branch_of(other: &Option<List<CStmt>>) -> &[CStmt]
    ensures { result.now ≡ branch other.now }
{
    match other {
        None => &[],
        Some(block) => block,
    }
}

/// Whether a statement is an assignment that changes nothing.
pub fn is_needless(cases: &[Case], stmt: &CStmt) -> bool
    ensures { result ≡ true → IsSkipped (facts_of cases.now) stmt.now }
{
    match assignment_of(stmt) {
        Some(it) => sets_nothing(cases, it.at, it.value),
        None => false,
    }
}

/// The slices of a list.
fn slices<'a>(alloc: Global, rest: &[&'a [CStmt]]) -> Result<Vec<&'a [CStmt]>, AllocError>
    ensures { IfOk result (λ all. all.items ≡ rest.now) }
{
    let mut all = Vec::new(alloc);
    for block in rest {
        all.push(*block)?;
    }
    Ok(all)
}

/// The blocks that follow, of which the next one is the last, and one more before them.
#[tactic(auto, using(crate::proofs::OnBlocks::in_turn_last))]
pub fn with_next<'a>(
    alloc: Global,
    rest: &[&'a [CStmt]],
    next: &'a [CStmt],
) -> Result<Vec<&'a [CStmt]>, AllocError>
    ensures { IfOk result (λ more. in_turn (λ b. b.now) more.items ≡ next.now ++ in_turn (λ b. b.now) rest.now) }
{
    let mut more = slices(alloc, rest)?;
    if next.is_empty() {
        return Ok(more);
    }
    more.push(next)?;
    Ok(more)
}

/// Whether blocks, of which the next one is the last, have at most so many nodes.
pub fn are_within(blocks: &[&[CStmt]], nodes: usize) -> bool {
    let mut left = nodes;
    for block in blocks.iter().rev() {
        match left_after(block, left) {
            Some(more) => left = more,
            None => return false,
        }
    }
    true
}

/// How many of these nodes are left after those of a block, where it has no more.
fn left_after(block: &[CStmt], nodes: usize) -> Option<usize> {
    let mut left = nodes;
    for stmt in block {
        let weight = weight_of_stmt(stmt);
        if weight > left {
            return None;
        }
        left -= weight;
    }
    Some(left)
}

/// So many of the next statements, or all of the next block, which is the last.
pub fn front_of<'a>(rest: &[&'a [CStmt]], n: usize) -> &'a [CStmt] {
    match rest.split_last() {
        Some((next, _)) => &next[..n.min(next.len())],
        None => &[],
    }
}
