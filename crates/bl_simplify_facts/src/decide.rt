//! What all cases tell of a condition.

ghost use Rattle.std.specs.Prelude.{◌≡◌, IfOk, MatchOption, true, not};
ghost use Rattle.bl_simplify_laws.specs.Known.{all_decide, filtered, number_is as is_number_of, number_told};
ghost use Rattle.bl_simplify_laws.specs.Rules.{Weaker};
ghost use Rattle.bl_simplify_facts.specs.Entries.{facts_of, valuation};

use crate::entries::{Case, Entry, copy_of_case};
use crate::told::number_of;
use bl_tree::c::CExpr;
use bl_tree::{List, NoMemory};
use std::alloc::Global;

/// The truth of a condition that all cases give it. Where no case is left, any.
pub fn decided(cases: &[Case], condition: &CExpr) -> Option<bool>
    ensures { MatchOption result (Unit {0}) (λ b. all_decide (facts_of cases.now) condition.now b ≡ true) }
{
    if all_give(cases, condition, true) {
        Some(true)
    } else if all_give(cases, condition, false) {
        Some(false)
    } else {
        None
    }
}

/// Whether each case gives a condition this truth.
pub fn all_give(cases: &[Case], condition: &CExpr, truth: bool) -> bool
    ensures { result ≡ all_decide (facts_of cases.now) condition.now truth }
{
    for case in cases {
        if !gives(case, condition, truth) {
            return false;
        }
    }
    true
}

/// Whether a case gives a condition this truth.
fn gives(case: &[Entry], condition: &CExpr, truth: bool) -> bool
    ensures { result ≡ is_number_of truth (number_told condition.now (valuation case.now)) }
{
    match number_of(case, condition) {
        Some(n) => (n == 1) == truth,
        None => false,
    }
}

/// The cases that may hold where the condition had this truth.
pub fn filtered_cases(
    alloc: Global,
    cases: &[Case],
    condition: &CExpr,
    truth: bool,
) -> Result<List<Case>, NoMemory>
    ensures { IfOk result (λ left. Weaker (filtered (facts_of cases.now) condition.now truth) (facts_of left)) }
{
    cases_left(alloc, cases, condition, truth)
}

/// The cases that don't give the condition the other truth.
pub fn cases_left(
    alloc: Global,
    cases: &[Case],
    condition: &CExpr,
    truth: bool,
) -> Result<List<Case>, NoMemory>
    ensures { IfOk result (λ left. facts_of left ≡ filtered (facts_of cases.now) condition.now truth) }
{
    let mut left = List::new(alloc);
    for case in cases {
        if !gives(case, condition, !truth) {
            left.push(copy_of_case(alloc, case)?)?;
        }
    }
    Ok(left)
}
