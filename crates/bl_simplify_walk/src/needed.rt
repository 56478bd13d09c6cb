//! What is known, as far as something that follows may read it. What is left out is a choice: flags that nothing reads any more
//! make cases many that do the same.

ghost use Rattle.std.specs.Prelude.{◌∷◌, IfOk};
ghost use Rattle.bl_simplify_laws.specs.Known.{filtered};
ghost use Rattle.bl_simplify_laws.specs.Rules.{After, AfterBlock, Weaker};
ghost use Rattle.bl_simplify_facts.specs.Entries.{facts_of};
ghost use Rattle.bl_simplify_steps.specs.Entry.{known_from};

use crate::reads::{Use, set_next, use_in_block};
use bl_simplify_facts::decide::filtered_cases;
use bl_simplify_facts::entries::{Case, Entry, copy_of_spot};
use bl_simplify_facts::told::number_of_spot;
use bl_simplify_laws::facts::CSpot;
use bl_simplify_laws::rules::step_rules;
use bl_simplify_steps::steps::{cases_after, cases_at_entry, cases_without};
use bl_tree::c::{CExpr, CFunc, CStmt};
use bl_tree::{List, NoMemory};
use std::alloc::Global;

/// What is known where a function begins in one of these cases.
pub fn cases_at_start(
    alloc: Global,
    reached: &[Case],
    function: &CFunc,
) -> Result<List<Case>, NoMemory>
    ensures { IfOk result (λ cases. Weaker (known_from (facts_of reached.now) function.now) (facts_of cases)) }
{
    let cases = cases_at_entry(alloc, reached, function)?;
    needed(alloc, cases, &function.body, &[])
}

/// What is known before a block and those that follow it, where a condition had this truth.
pub fn cases_in_branch(
    alloc: Global,
    cases: &[Case],
    condition: &CExpr,
    truth: bool,
    block: &[CStmt],
    rest: &[&[CStmt]],
) -> Result<List<Case>, NoMemory>
    ensures { IfOk result (λ left. Weaker (filtered (facts_of cases.now) condition.now truth) (facts_of left)) }
{
    let left = filtered_cases(alloc, cases, condition, truth)?;
    needed(alloc, left, block, rest)
}

/// What is known behind a statement that goes on, before the blocks that follow.
pub fn cases_behind(
    alloc: Global,
    cases: &[Case],
    stmt: &CStmt,
    rest: &[&[CStmt]],
) -> Result<List<Case>, NoMemory>
    ensures { IfOk result (λ left. After (facts_of cases.now) stmt.now (facts_of left)) }
{
    step_rules();
    let after = cases_after(alloc, cases, stmt)?;
    needed(alloc, after, &[], rest)
}

/// What is known behind a statement and a block that go on, before the blocks that follow.
pub fn cases_behind_part(
    alloc: Global,
    cases: &[Case],
    stmt: &CStmt,
    block: &[CStmt],
    rest: &[&[CStmt]],
) -> Result<List<Case>, NoMemory>
    ensures { IfOk result (λ left. AfterBlock (facts_of cases.now) (stmt.now ∷ block.now) (facts_of left)) }
{
    step_rules();
    let after = cases_after(alloc, cases, stmt)?;
    let left = cases_after_all(alloc, after, block)?;
    needed(alloc, left, &[], rest)
}

/// What is known after a block that goes on.
pub fn cases_after_all(
    alloc: Global,
    cases: List<Case>,
    block: &[CStmt],
) -> Result<List<Case>, NoMemory>
    ensures { IfOk result (λ left. AfterBlock (facts_of cases) block.now (facts_of left)) }
{
    step_rules();
    let mut left = cases;
    for stmt in block {
        left = cases_after(alloc, &left, stmt)?;
    }
    Ok(left)
}

/// The cases without what they know of locals that no block reads.
fn needed(
    alloc: Global,
    cases: List<Case>,
    block: &[CStmt],
    rest: &[&[CStmt]],
) -> Result<List<Case>, NoMemory>
    ensures { IfOk result (λ left. Weaker (facts_of cases) (facts_of left)) }
{
    if cases.len() < 2 {
        return Ok(cases);
    }
    let gone = unread(alloc, &cases, block, rest)?;
    if gone.is_empty() {
        return Ok(cases);
    }
    cases_without(alloc, &cases, &gone)
}

/// The locals of which the first case knows something, and which no block reads, nor sets to the number that all cases know.
fn unread(
    alloc: Global,
    cases: &[Case],
    block: &[CStmt],
    rest: &[&[CStmt]],
) -> Result<List<CSpot>, NoMemory> {
    let mut gone = List::new(alloc);
    if let [case, ..] = cases {
        for entry in case.as_slice() {
            if !entry.spot.through
                && !is_read(block, rest, &entry.spot.name)
                && !is_set_in_vain(cases, block, rest, entry)
            {
                gone.push(copy_of_spot(alloc, &entry.spot)?)?;
            }
        }
    }
    Ok(gone)
}

/// Whether a local is set next to the number that all cases know.
fn is_set_in_vain(cases: &[Case], block: &[CStmt], rest: &[&[CStmt]], entry: &Entry) -> bool {
    match set_behind(block, rest, &entry.spot.name) {
        Some(n) => all_tell(cases, &entry.spot, n),
        None => false,
    }
}

/// The literal to which a block or those that follow it set a variable next. The next one is the last.
fn set_behind(block: &[CStmt], rest: &[&[CStmt]], name: &str) -> Option<i128> {
    let here = set_next(block, name);
    if here.is_some() {
        return here;
    }
    for following in rest.iter().rev() {
        let set = set_next(following, name);
        if set.is_some() {
            return set;
        }
    }
    None
}

fn all_tell(cases: &[Case], spot: &CSpot, n: i128) -> bool {
    for case in cases {
        if number_of_spot(case, spot) != Some(n) {
            return false;
        }
    }
    true
}

fn is_read(block: &[CStmt], rest: &[&[CStmt]], name: &str) -> bool {
    match use_in_block(block, name) {
        Use::Read => true,
        Use::Set => false,
        Use::Absent => is_read_behind(rest, name),
    }
}

/// Whether the blocks that follow read a variable before they set it. The next one is the last.
fn is_read_behind(rest: &[&[CStmt]], name: &str) -> bool {
    for following in rest.iter().rev() {
        match use_in_block(following, name) {
            Use::Read => return true,
            Use::Set => return false,
            Use::Absent => {}
        }
    }
    false
}
