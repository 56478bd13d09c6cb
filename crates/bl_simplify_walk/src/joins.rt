//! An `if` and what follows it, where its branches have something in common.

ghost use Rattle.std.specs.Prelude.{◌≡◌, [], ◌∷◌, IfOk, MatchOption};
ghost use Rattle.bl_simplify_laws.specs.Joins.{SameBlocks, and_expr, not_expr, or_expr};
ghost use Rattle.bl_simplify_laws.specs.Splits.{if_stmt};
ghost use Rattle.bl_simplify_walk.specs.Forms.{else_of as c_else};
ghost use Rattle.bl_simplify_walk.specs.Joined.{EndsOut, JoinsTo, made_of};

use crate::front::{Front, put_before};
use crate::parts::{Branches, branch_of, branches_of};
use crate::rules::join_forms;
use crate::same::{fronts_of, is_same_block};
use crate::weight::weight_in_split;
use bl_simplify_facts::copy::expr as copy_of;
use bl_simplify_facts::copy_stmt::block as copy_of_block;
use bl_simplify_facts::told::is_total;
use bl_tree::c::{CExpr, CExprKind, CStmt, CStmtKind};
use bl_tree::place::Place;
use bl_tree::{Box, List, NoMemory, Op};
use std::alloc::Global;

/// The parts of an `if` that is to be made.
#[derive(Drop)]
pub struct Made {
    pub test: CExpr,
    pub block: List<CStmt>,
    pub other: List<CStmt>,
}

/// An `if` and what follows it: what both branches end with stands behind it, and conditions of nested `if`s are joined where
/// only one of the branches is left twice.
pub fn if_before(
    alloc: Global,
    place: Place,
    test: CExpr,
    new: Front,
    others: Front,
    following: Front,
) -> Result<Front, NoMemory>
    ensures { IfOk result (SameBlocks (if_stmt place test new (c_else others) ∷ following)) }
{
    join_forms();
    let Taken {
        block,
        other,
        behind,
    } = ends_taken(new, others, following)?;
    if block.is_empty() && other.is_empty() && is_total(&test) {
        return Ok(behind);
    }
    let made = joined(alloc, place, Made { test, block, other })?;
    with_if(alloc, place, made, behind)
}

/// What is left of two branches, and what follows them.
#[derive(Drop)]
struct Taken {
    block: List<CStmt>,
    other: List<CStmt>,
    behind: Front,
}

/// Takes what both branches end with before what follows.
fn ends_taken(new: Front, others: Front, following: Front) -> Result<Taken, NoMemory>
    ensures { IfOk result (λ it. EndsOut new others following it.block it.other it.behind) }
{
    let mut block = new.finish().into_vec();
    let mut other = others.finish().into_vec();
    let fronts = fronts_of(&block, &other);
    let both = block.split_off(fronts.first)?;
    other.truncate(fronts.second);
    let behind = put_before(both, following)?;
    Ok(Taken {
        block: List::from_vec(block),
        other: List::from_vec(other),
        behind,
    })
}

/// The `if` of these parts before what follows it.
fn with_if(alloc: Global, place: Place, made: Made, following: Front) -> Result<Front, NoMemory>
    ensures { IfOk result (λ new. new ≡ if_stmt place made.test made.block (c_else made.other) ∷ following) }
{
    let Made { test, block, other } = made;
    let test = Box::new(alloc, test)?;
    let what = CStmtKind::If(test, block, else_of(other));
    let stmt = CStmt { place, what };
    let weight = weight_in_split(&stmt);
    following.after(stmt, weight)
}

/// The `else` with these statements, absent where there are none.
fn else_of(others: List<CStmt>) -> Option<List<CStmt>>
    ensures { result ≡ c_else others }
{
    if others.is_empty() {
        return None;
    }
    Some(others)
}

/// The `if` that is the only statement of a block.
fn only_if(block: &[CStmt]) -> Option<Branches<'_>>
    ensures { MatchOption result (Unit {0}) (λ it. block.now ≡ if_stmt it.place it.condition.now it.block.now it.other.now ∷ []) }
{
    match block {
        [only] => branches_of(only),
        _ => None,
    }
}

/// The parts with joined conditions, where one branch stands in the other as well.
fn joined(alloc: Global, place: Place, it: Made) -> Result<Made, NoMemory>
    ensures { IfOk result (JoinsTo it) }
{
    join_forms();
    if let Some(made) = joined_else(alloc, place, &it)? {
        return Ok(made);
    }
    if let Some(made) = joined_then(alloc, place, &it)? {
        return Ok(made);
    }
    if it.block.is_empty() {
        return turned(alloc, place, it);
    }
    Ok(it)
}

/// With `else` alone: the negation.
fn turned(alloc: Global, place: Place, it: Made) -> Result<Made, NoMemory>
    requires { it.block ≡ [] }
    ensures { IfOk result (JoinsTo it) }
{
    join_forms();
    let Made { test, block, other } = it;
    let test = negation(alloc, place, test)?;
    Ok(Made {
        test,
        block: other,
        other: block,
    })
}

/// Where the other branch is an `if` of which one branch is the first.
fn joined_else(alloc: Global, place: Place, it: &Made) -> Result<Option<Made>, NoMemory>
    ensures { IfOk result (λ made. MatchOption made (Unit {0}) (JoinsTo it.now)) }
{
    join_forms();
    let Some(inner) = only_if(&it.other) else {
        return Ok(None);
    };
    if is_same_block(inner.block, &it.block) {
        let (first, second) = (copy_of(alloc, &it.test)?, copy_of(alloc, inner.condition)?);
        let test = either(alloc, place, first, second)?;
        let other = copy_of_block(alloc, branch_of(inner.other))?;
        return Ok(Some(with_block(alloc, test, &it.block, other)?));
    }
    Ok(None)
}

/// Where the first branch is an `if` of which one branch is the other.
fn joined_then(alloc: Global, place: Place, it: &Made) -> Result<Option<Made>, NoMemory>
    ensures { IfOk result (λ made. MatchOption made (Unit {0}) (JoinsTo it.now)) }
{
    join_forms();
    let Some(inner) = only_if(&it.block) else {
        return Ok(None);
    };
    if is_same_block(branch_of(inner.other), &it.other) {
        let (first, second) = (copy_of(alloc, &it.test)?, copy_of(alloc, inner.condition)?);
        let test = both(alloc, place, first, second)?;
        let other = copy_of_block(alloc, &it.other)?;
        return Ok(Some(with_block(alloc, test, inner.block, other)?));
    }
    Ok(None)
}

/// The parts with a copy of a block.
fn with_block(
    alloc: Global,
    test: CExpr,
    block: &[CStmt],
    other: List<CStmt>,
) -> Result<Made, NoMemory>
    ensures { IfOk result (λ made. made ≡ made_of test block.now other) }
{
    let block = copy_of_block(alloc, block)?;
    Ok(Made { test, block, other })
}

/// `first && second`
fn both(alloc: Global, place: Place, first: CExpr, second: CExpr) -> Result<CExpr, NoMemory>
    ensures { IfOk result (λ test. test ≡ and_expr place first second) }
{
    let first = Box::new(alloc, first)?;
    let second = Box::new(alloc, second)?;
    Ok(CExpr {
        place,
        what: CExprKind::Two(Op::And, first, second),
    })
}

/// `first || second`
fn either(alloc: Global, place: Place, first: CExpr, second: CExpr) -> Result<CExpr, NoMemory>
    ensures { IfOk result (λ test. test ≡ or_expr place first second) }
{
    let first = Box::new(alloc, first)?;
    let second = Box::new(alloc, second)?;
    Ok(CExpr {
        place,
        what: CExprKind::Two(Op::Or, first, second),
    })
}

/// `!operand`
fn negation(alloc: Global, place: Place, operand: CExpr) -> Result<CExpr, NoMemory>
    ensures { IfOk result (λ test. test ≡ not_expr place operand) }
{
    let operand = Box::new(alloc, operand)?;
    Ok(CExpr {
        place,
        what: CExprKind::Not(operand),
    })
}
