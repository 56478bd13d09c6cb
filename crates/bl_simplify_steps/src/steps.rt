//! What is known after statements, where functions and loops begin, and what is enough to know.

ghost use Rattle.std.specs.Prelude.{◌≡◌, IfOk, List, true, ◌∷◌, map};
ghost use Rattle.bl_tree.specs.declared.c.CStmt.{CStmt};
ghost use Rattle.bl_tree.specs.declared.place.Place.{Place};
ghost use Rattle.bl_simplify_laws.specs.Known.{filtered};
ghost use Rattle.bl_simplify_laws.specs.Rules.{After, AfterBlock, AlikeWhere, Weaker};
ghost use Rattle.bl_simplify_laws.specs.Steps.{set_stmt, without_spots};
ghost use Rattle.bl_simplify_laws.specs.Written.{written_in};
ghost use Rattle.bl_simplify_facts.specs.Entries.{facts_of};

pub use crate::begin::cases_at_entry;
use crate::cases::{are_few, together};
use crate::forget::{all_apart, all_without};
use crate::sets::{after_any, after_call, after_set, all_have};
use crate::written::{add_written, add_written_by};
use bl_simplify_facts::decide::cases_left;
use bl_simplify_facts::entries::Case;
use bl_simplify_facts::spots::is_spot;
use bl_simplify_facts::told::told_fact;
use bl_simplify_laws::facts::CSpot;
use bl_simplify_laws::rules::{block_rules, step_rules};
use bl_tree::c::{CExpr, CPlace, CStmt, CStmtKind};
use bl_tree::{List, NoMemory};
use std::alloc::Global;

/// What is known after a statement that goes on. No case is left after one that never does.
#[cycle(stepping)]
pub fn cases_after(alloc: Global, cases: &[Case], stmt: &CStmt) -> Result<List<Case>, NoMemory>
    ensures { IfOk result (λ left. After (facts_of cases.now) stmt.now (facts_of left)) }
{
    step_rules();
    match &stmt.what {
        CStmtKind::Set(at, value) => after_set(alloc, cases, at, value),
        CStmtKind::Call(call) => after_call(alloc, cases, call),
        CStmtKind::If(condition, block, None) => {
            let taken = cases_left(alloc, cases, condition, true)?;
            let exits = cases_after_block(alloc, taken, block)?;
            let others = cases_left(alloc, cases, condition, false)?;
            few(alloc, cases, stmt, together(alloc, exits, &others)?)
        }
        CStmtKind::If(condition, block, Some(other)) => {
            let taken = cases_left(alloc, cases, condition, true)?;
            let exits = cases_after_block(alloc, taken, block)?;
            let left = cases_left(alloc, cases, condition, false)?;
            let others = cases_after_block(alloc, left, other)?;
            few(alloc, cases, stmt, together(alloc, exits, &others)?)
        }
        CStmtKind::Break | CStmtKind::Return(_) => Ok(List::new(alloc)),
        CStmtKind::Clear(_, _) | CStmtKind::Loop(_, _, _) => after_any(alloc, cases, stmt),
    }
}

/// What is known after a block that goes on.
#[cycle(stepping)]
fn cases_after_block(
    alloc: Global,
    cases: List<Case>,
    block: &[CStmt],
) -> Result<List<Case>, NoMemory>
    ensures { IfOk result (λ left. AfterBlock (facts_of cases) block.now (facts_of left)) }
{
    step_rules();
    let mut left = cases;
    for stmt in block {
        if !leaves_known(alloc, &left, stmt)? {
            left = cases_after(alloc, &left, stmt)?;
        }
    }
    Ok(left)
}

/// Whether all that is known stays known after a statement, which tells nothing more.
pub fn leaves_known(alloc: Global, cases: &[Case], stmt: &CStmt) -> Result<bool, NoMemory>
    ensures { IfOk result (λ leaves. leaves ≡ true → After (facts_of cases.now) stmt.now (facts_of cases.now)) }
{
    if tells_more(cases, stmt) {
        return Ok(false);
    }
    leaves_all(alloc, cases, stmt)
}

/// Whether a statement sets something to a value of which something is known.
fn tells_more(cases: &[Case], stmt: &CStmt) -> bool {
    match (&stmt.what, cases) {
        (CStmtKind::Set(_, value), [case, ..]) => told_fact(case, value).is_some(),
        _ => false,
    }
}

/// Whether what is known is of spots that a statement doesn't write.
fn leaves_all(alloc: Global, cases: &[Case], stmt: &CStmt) -> Result<bool, NoMemory>
    ensures { IfOk result (λ leaves. leaves ≡ true → After (facts_of cases.now) stmt.now (facts_of cases.now)) }
{
    step_rules();
    let mut written = List::new(alloc);
    add_written_by(alloc, stmt, &mut written)?;
    Ok(all_apart(&written, cases))
}

/// What is known after a statement, where these are few cases; else what it doesn't write.
fn few(
    alloc: Global,
    cases: &[Case],
    stmt: &CStmt,
    known: List<Case>,
) -> Result<List<Case>, NoMemory>
    requires { After (facts_of cases.now) stmt.now (facts_of known) }
    ensures { IfOk result (λ left. After (facts_of cases.now) stmt.now (facts_of left)) }
{
    step_rules();
    if are_few(&known, 1) {
        Ok(known)
    } else {
        after_any(alloc, cases, stmt)
    }
}

/// The cases without what they know of some spots, each once.
pub fn cases_without(alloc: Global, cases: &[Case], gone: &[CSpot]) -> Result<List<Case>, NoMemory>
    ensures { IfOk result (λ left. Weaker (facts_of cases.now) (facts_of left)) }
{
    block_rules();
    let left = all_without(alloc, gone, cases)?;
    let none = List::new(alloc);
    together(alloc, none, &left)
}

/// Whether an assignment sets a spot to the number that it has.
pub fn sets_nothing(cases: &[Case], at: &CPlace, value: &CExpr) -> bool
    ensures { result ≡ true →
        (to : Place) (rest new : List CStmt) → AlikeWhere (facts_of cases.now) rest new → AlikeWhere (facts_of cases.now) (set_stmt to at.now value.now ∷ rest) new }
{
    block_rules();
    is_spot(at) && all_have(cases, at, value)
}

/// What is known in each turn of a loop: what its body doesn't write, where its condition holds.
pub fn cases_in_turns(
    alloc: Global,
    cases: &[Case],
    condition: &CExpr,
    body: &[CStmt],
) -> Result<List<Case>, NoMemory>
    ensures { IfOk result (λ left. Weaker (filtered (map (without_spots (written_in body.now)) (facts_of cases.now)) condition.now true) (facts_of left)) }
{
    let mut written = List::new(alloc);
    add_written(alloc, body, &mut written)?;
    let before = all_without(alloc, &written, cases)?;
    cases_left(alloc, &before, condition, true)
}
