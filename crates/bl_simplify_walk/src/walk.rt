//! Blocks that do the same with fewer statements.

ghost use Rattle.std.specs.Prelude.{◌≡◌, ◌∷◌, ◌++◌, IfOk};
ghost use Rattle.bl_simplify_laws.specs.Known.{filtered};
ghost use Rattle.bl_simplify_laws.specs.Rules.{AlikeWhere, StmtsAlikeWhere};
ghost use Rattle.bl_simplify_laws.specs.Splits.{if_stmt};
ghost use Rattle.bl_simplify_facts.specs.Entries.{facts_of};
ghost use Rattle.bl_simplify_steps.specs.Entry.{known_from};
ghost use Rattle.bl_simplify_walk.specs.Blocks.{in_turn};

use crate::front::Front;
use crate::made::{copies, kept_of, loop_of, split_of};
use crate::needed::{cases_at_start, cases_behind, cases_behind_part, cases_in_branch};
use crate::parts::{
    Branches, are_within, branch_of, branches_of, front_of, is_needless, turns_of, with_next,
};
use crate::reach::{Manner, Plan, Reach, Share, Walk, is_better, is_walked};
use crate::reads::reads_set;
use crate::rules::{copied_blocks, part_forms, turn_forms};
use crate::weight::{weight_in_split, weight_of_block, weight_of_stmt};
use bl_simplify_facts::copy_stmt;
use bl_simplify_facts::decide::decided;
use bl_simplify_facts::entries::Case;
use bl_simplify_laws::rules::{block_rules, stmt_rules};
use bl_simplify_steps::exchange::{exchanged, tests_in};
use bl_simplify_steps::steps::{cases_after, cases_in_turns, leaves_known};
use bl_tree::c::{CExpr, CFunc, CStmt};
use bl_tree::{List, NoMemory};
use std::alloc::Global;

/// How deep the walk calls itself. What it doesn't reach stays as it stands.
const FUEL: usize = 1_000;

/// A body that does the same where one of these cases holds and the function's locals are 0.
pub fn simplified_block(
    alloc: Global,
    function: &CFunc,
    reached: &[Case],
    share: Share,
    manner: Manner,
) -> Result<List<CStmt>, NoMemory>
    ensures { IfOk result (λ new. AlikeWhere (known_from (facts_of reached.now) function.now) function.now.body new) }
{
    copied_blocks();
    block_rules();
    let weight = weight_of_block(&function.body);
    if !is_walked(weight) {
        return copy_stmt::block(alloc, &function.body);
    }
    let cases = cases_at_start(alloc, reached, function)?;
    let tests = tests_in(alloc, &cases, &function.body)?;
    let mut walk = Walk::new(alloc, weight, share);
    let new = walked(
        &mut walk,
        FUEL,
        Reach::new(manner, &tests),
        &cases,
        &function.body,
        &[],
    )?;
    Ok(new.finish())
}

/// A block that does the same as a block and those that follow it, of which the next one is the last, where one of the cases holds.
#[cycle(walking)]
fn walked<'a>(
    walk: &mut Walk,
    fuel: usize,
    reach: Reach<'_>,
    cases: &[Case],
    block: &'a [CStmt],
    rest: &[&'a [CStmt]],
) -> Result<Front, NoMemory>
    ensures { IfOk result (λ new. AlikeWhere (facts_of cases.now) (block.now ++ in_turn (λ b. b.now) rest.now) new) }
{
    copied_blocks();
    block_rules();
    if fuel == 0 || walk.is_over() {
        return copies(walk.alloc, block, rest);
    }
    if cases.is_empty() {
        return Ok(Front::new(walk.alloc));
    }
    walk.look(cases);
    match block.split_first() {
        Some((first, tail)) => first_walked(walk, fuel - 1, reach, cases, first, tail, rest),
        None => match rest.split_last() {
            Some((next, others)) => walked(walk, fuel - 1, reach, cases, next, others),
            None => Ok(Front::new(walk.alloc)),
        },
    }
}

/// The same of a statement, those behind it in its block, and the blocks that follow.
#[cycle(walking)]
fn first_walked<'a>(
    walk: &mut Walk,
    fuel: usize,
    reach: Reach<'_>,
    cases: &[Case],
    first: &'a CStmt,
    tail: &'a [CStmt],
    rest: &[&'a [CStmt]],
) -> Result<Front, NoMemory>
    ensures { IfOk result (λ new. AlikeWhere (facts_of cases.now) (first.now ∷ (tail.now ++ in_turn (λ b. b.now) rest.now)) new) }
{
    block_rules();
    if let Some(it) = branches_of(first) {
        let more = with_next(walk.alloc, rest, tail)?;
        return branched(walk, fuel, reach, cases, &it, &more);
    }
    if is_needless(cases, first) {
        return walked(walk, fuel, reach, cases, tail, rest);
    }
    let new = stmt_walked(walk, fuel, reach, cases, first)?;
    let weight = weight_in_split(&new);
    if leaves_known(walk.alloc, cases, first)? {
        let following = walked(walk, fuel, reach, cases, tail, rest)?;
        return following.after(new, weight);
    }
    walk.step(cases, 1);
    let after = cases_after(walk.alloc, cases, first)?;
    let following = walked(walk, fuel, reach, &after, tail, rest)?;
    following.after(new, weight)
}

/// A statement that does the same as one that is no `if`.
#[cycle(walking)]
fn stmt_walked<'a>(
    walk: &mut Walk,
    fuel: usize,
    reach: Reach<'_>,
    cases: &[Case],
    stmt: &'a CStmt,
) -> Result<CStmt, NoMemory>
    ensures { IfOk result (λ new. StmtsAlikeWhere (facts_of cases.now) stmt.now new) }
{
    stmt_rules();
    turn_forms();
    match turns_of(stmt) {
        None => copy_stmt::stmt(walk.alloc, stmt),
        Some(it) => {
            let turns = cases_in_turns(walk.alloc, cases, it.condition, it.body)?;
            let body = walked(walk, fuel, reach.inner(), &turns, it.body, &[])?;
            loop_of(walk.alloc, &it, body)
        }
    }
}

/// The branch of an `if` that is decided, or the `if`, with what follows it.
#[cycle(walking)]
fn branched<'a>(
    walk: &mut Walk,
    fuel: usize,
    reach: Reach<'_>,
    cases: &[Case],
    it: &Branches<'a>,
    rest: &[&'a [CStmt]],
) -> Result<Front, NoMemory>
    requires { it.now.whole.now ≡ if_stmt it.now.place it.now.condition.now it.now.block.now it.now.other.now }
    ensures { IfOk result (λ new. AlikeWhere (facts_of cases.now) (it.now.whole.now ∷ in_turn (λ b. b.now) rest.now) new) }
{
    block_rules();
    match decided(cases, it.condition) {
        Some(true) => walked(walk, fuel, reach, cases, it.block, rest),
        Some(false) => walked(walk, fuel, reach, cases, branch_of(it.other), rest),
        None => match plan(walk, fuel, reach, cases, it, rest)? {
            Plan::Split => split(walk, fuel, reach, cases, it, rest),
            Plan::Kept => kept(walk, fuel, reach, cases, it, rest),
            Plan::Part(n) => part(walk, fuel, reach, cases, it, rest, n),
        },
    }
}

/// What is done with an `if`: each is tried.
#[cycle(walking)]
fn plan<'a>(
    walk: &mut Walk,
    fuel: usize,
    reach: Reach<'_>,
    cases: &[Case],
    it: &Branches<'a>,
    rest: &[&'a [CStmt]],
) -> Result<Plan, NoMemory>
    requires { it.now.whole.now ≡ if_stmt it.now.place it.now.condition.now it.now.block.now it.now.other.now }
{
    if rest.is_empty() {
        return Ok(Plan::Split);
    }
    if walk.is_spent() || !reach.may_part() {
        return Ok(Plan::Kept);
    }
    if reach.may_split() && are_within(rest, reach.near) {
        let one = split(walk, fuel, reach.trial(), cases, it, rest)?;
        let other = kept(walk, fuel, reach.trial(), cases, it, rest)?;
        if is_better(one, other, reach.allowance) {
            return Ok(Plan::Split);
        }
    }
    best_part(walk, fuel, reach, cases, it, rest)
}

/// With how many of the next statements in the branches the text gets shortest.
#[cycle(walking)]
fn best_part<'a>(
    walk: &mut Walk,
    fuel: usize,
    reach: Reach<'_>,
    cases: &[Case],
    it: &Branches<'a>,
    rest: &[&'a [CStmt]],
) -> Result<Plan, NoMemory>
    requires { it.now.whole.now ≡ if_stmt it.now.place it.now.condition.now it.now.block.now it.now.other.now }
{
    let one = gained(walk, fuel, reach, cases, it, rest, 1)?;
    let two = gained(walk, fuel, reach, cases, it, rest, 2)?;
    if two > one {
        Ok(Plan::Part(2))
    } else if one > 0 {
        Ok(Plan::Part(1))
    } else {
        Ok(Plan::Kept)
    }
}

/// How many nodes the text has less with so many of the next statements in the branches. It is tried where the last of them
/// reads a local that the `if` sets.
#[cycle(walking)]
fn gained<'a>(
    walk: &mut Walk,
    fuel: usize,
    reach: Reach<'_>,
    cases: &[Case],
    it: &Branches<'a>,
    rest: &[&'a [CStmt]],
    n: usize,
) -> Result<usize, NoMemory>
    requires { it.now.whole.now ≡ if_stmt it.now.place it.now.condition.now it.now.block.now it.now.other.now }
{
    if !reads_set(walk.alloc, it.whole, rest, n)? {
        return Ok(0);
    }
    let front = front_of(rest, n);
    let one = split(walk, fuel, reach.trial(), cases, it, &[front])?;
    let other = kept(walk, fuel, reach.trial(), cases, it, &[front])?;
    Ok(other.weight.saturating_sub(one.weight))
}

/// An `if` with what follows it in both of its branches.
#[cycle(walking)]
fn split<'a>(
    walk: &mut Walk,
    fuel: usize,
    reach: Reach<'_>,
    cases: &[Case],
    it: &Branches<'a>,
    rest: &[&'a [CStmt]],
) -> Result<Front, NoMemory>
    requires { it.now.whole.now ≡ if_stmt it.now.place it.now.condition.now it.now.block.now it.now.other.now }
    ensures { IfOk result (λ new. AlikeWhere (facts_of cases.now) (it.now.whole.now ∷ in_turn (λ b. b.now) rest.now) new) }
{
    let test = exchanged(walk.alloc, cases, reach.tests, it.condition)?;
    let new = branch_walked(walk, fuel, reach, cases, &test, true, it.block, rest)?;
    let other = branch_of(it.other);
    let others = branch_walked(walk, fuel, reach, cases, &test, false, other, rest)?;
    split_of(walk.alloc, it.place, test, new, others)
}

/// An `if` before what follows it.
#[cycle(walking)]
fn kept<'a>(
    walk: &mut Walk,
    fuel: usize,
    reach: Reach<'_>,
    cases: &[Case],
    it: &Branches<'a>,
    rest: &[&'a [CStmt]],
) -> Result<Front, NoMemory>
    requires { it.now.whole.now ≡ if_stmt it.now.place it.now.condition.now it.now.block.now it.now.other.now }
    ensures { IfOk result (λ new. AlikeWhere (facts_of cases.now) (it.now.whole.now ∷ in_turn (λ b. b.now) rest.now) new) }
{
    let test = exchanged(walk.alloc, cases, reach.tests, it.condition)?;
    let new = branch_walked(walk, fuel, reach, cases, &test, true, it.block, &[])?;
    let other = branch_of(it.other);
    let others = branch_walked(walk, fuel, reach, cases, &test, false, other, &[])?;
    walk.step(cases, weight_of_stmt(it.whole));
    let after = cases_behind(walk.alloc, cases, it.whole, rest)?;
    let following = walked(walk, fuel, reach, &after, &[], rest)?;
    kept_of(walk.alloc, it.place, test, new, others, following)
}

/// A branch and what follows it, where the condition had its truth.
#[cycle(walking)]
fn branch_walked<'a>(
    walk: &mut Walk,
    fuel: usize,
    reach: Reach<'_>,
    cases: &[Case],
    test: &CExpr,
    truth: bool,
    block: &'a [CStmt],
    rest: &[&'a [CStmt]],
) -> Result<Front, NoMemory>
    ensures { IfOk result (λ new. AlikeWhere (filtered (facts_of cases.now) test.now truth) (block.now ++ in_turn (λ b. b.now) rest.now) new) }
{
    block_rules();
    walk.step(cases, 1);
    let left = cases_in_branch(walk.alloc, cases, test, truth, block, rest)?;
    walked(walk, fuel, reach.inner(), &left, block, rest)
}

/// An `if` with so many of the next statements in both of its branches, before what follows them.
#[cycle(walking)]
fn part<'a>(
    walk: &mut Walk,
    fuel: usize,
    reach: Reach<'_>,
    cases: &[Case],
    it: &Branches<'a>,
    rest: &[&'a [CStmt]],
    n: usize,
) -> Result<Front, NoMemory>
    requires { it.now.whole.now ≡ if_stmt it.now.place it.now.condition.now it.now.block.now it.now.other.now }
    ensures { IfOk result (λ new. AlikeWhere (facts_of cases.now) (it.now.whole.now ∷ in_turn (λ b. b.now) rest.now) new) }
{
    part_forms();
    let Some((next, others)) = rest.split_last() else {
        return split(walk, fuel, reach, cases, it, rest);
    };
    let at = n.min(next.len());
    let (near, far) = next.split_at(at);
    let first = split(walk, fuel, reach, cases, it, &[near])?;
    walk.step(
        cases,
        weight_of_stmt(it.whole).saturating_add(weight_of_block(near)),
    );
    let left = with_next(walk.alloc, others, far)?;
    let after = cases_behind_part(walk.alloc, cases, it.whole, near, &left)?;
    let following = walked(walk, fuel, reach, &after, &[], &left)?;
    first.before(following)
}
