//! Conditions that have one truth with others: tests of a copy are tests of the counter that it copies, and so are flags.

ghost use Rattle.std.specs.Prelude.{◌≡◌, IfOk, MatchOption};
ghost use Rattle.bl_simplify_laws.specs.Conditions.{TestsAlike, same_tests, same_truths};
ghost use Rattle.bl_simplify_laws.specs.Joins.{and_expr, not_expr, or_expr};
ghost use Rattle.bl_simplify_laws.specs.Known.{number_told};
ghost use Rattle.bl_simplify_facts.specs.Entries.{facts_of, valuation};

pub use crate::counters::tests_in;
use crate::counters::{counter_test, equal_test};
use bl_simplify_facts::copy::expr as copy_of;
use bl_simplify_facts::decide::{all_give, cases_left};
use bl_simplify_facts::entries::{Case, Entry};
use bl_simplify_facts::told::number_of;
use bl_simplify_laws::conditions::test_rules;
use bl_tree::c::{CExpr, CExprKind};
use bl_tree::place::Place;
use bl_tree::{Box, NoMemory, Op};
use std::alloc::Global;

/// A condition that has the same truth where one of the cases holds: tests of a copy are tests of the counter that it copies,
/// a flag is one of the tests that has its truth, `>=` is `==` at a greatest number, and sides that are decided are gone.
#[cycle(exchanging)]
pub fn exchanged(
    alloc: Global,
    cases: &[Case],
    tests: &[CExpr],
    condition: &CExpr,
) -> Result<CExpr, NoMemory>
    ensures { IfOk result (λ test. TestsAlike (facts_of cases.now) condition.now test) }
{
    test_rules();
    match &condition.what {
        CExprKind::Two(Op::And, left, right) => {
            if all_give(cases, left, true) {
                return exchanged(alloc, cases, tests, right);
            }
            if all_give(cases, right, true) {
                return exchanged(alloc, cases, tests, left);
            }
            if have_one_truth(cases, condition, right) {
                return exchanged(alloc, cases, tests, right);
            }
            if have_one_truth(cases, condition, left) {
                return exchanged(alloc, cases, tests, left);
            }
            let first = exchanged(alloc, cases, tests, left)?;
            let held = cases_left(alloc, cases, left, true)?;
            let second = exchanged(alloc, &held, tests, right)?;
            both(alloc, condition.place, first, second)
        }
        CExprKind::Two(Op::Or, left, right) => {
            if all_give(cases, left, false) {
                return exchanged(alloc, cases, tests, right);
            }
            if all_give(cases, right, false) {
                return exchanged(alloc, cases, tests, left);
            }
            if have_one_truth(cases, condition, right) {
                return exchanged(alloc, cases, tests, right);
            }
            if have_one_truth(cases, condition, left) {
                return exchanged(alloc, cases, tests, left);
            }
            let first = exchanged(alloc, cases, tests, left)?;
            let held = cases_left(alloc, cases, left, false)?;
            let second = exchanged(alloc, &held, tests, right)?;
            either(alloc, condition.place, first, second)
        }
        CExprKind::Not(operand) => {
            let operand = exchanged(alloc, cases, tests, operand)?;
            negation(alloc, condition.place, operand)
        }
        _ => compared(alloc, cases, tests, condition),
    }
}

/// `first && second`
fn both(alloc: Global, place: Place, first: CExpr, second: CExpr) -> Result<CExpr, NoMemory>
    ensures { IfOk result (λ test. test ≡ and_expr place first second) }
{
    let first = Box::new(alloc, first)?;
    let second = Box::new(alloc, second)?;
    Ok(CExpr {
        place,
        what: CExprKind::Two(Op::And, first, second),
    })
}

/// `first || second`
fn either(alloc: Global, place: Place, first: CExpr, second: CExpr) -> Result<CExpr, NoMemory>
    ensures { IfOk result (λ test. test ≡ or_expr place first second) }
{
    let first = Box::new(alloc, first)?;
    let second = Box::new(alloc, second)?;
    Ok(CExpr {
        place,
        what: CExprKind::Two(Op::Or, first, second),
    })
}

/// `!operand`
fn negation(alloc: Global, place: Place, operand: CExpr) -> Result<CExpr, NoMemory>
    ensures { IfOk result (λ test. test ≡ not_expr place operand) }
{
    let operand = Box::new(alloc, operand)?;
    Ok(CExpr {
        place,
        what: CExprKind::Not(operand),
    })
}

/// A test that has the truth of a comparison or of a flag in all cases.
fn compared(
    alloc: Global,
    cases: &[Case],
    tests: &[CExpr],
    condition: &CExpr,
) -> Result<CExpr, NoMemory>
    ensures { IfOk result (λ test. TestsAlike (facts_of cases.now) condition.now test) }
{
    test_rules();
    let test = counted(alloc, cases, tests, condition)?;
    sharpened(alloc, cases, test)
}

/// A test of a counter, where all cases give it the truth of the comparison of its copy, or of a flag.
fn counted(
    alloc: Global,
    cases: &[Case],
    tests: &[CExpr],
    condition: &CExpr,
) -> Result<CExpr, NoMemory>
    ensures { IfOk result (λ test. TestsAlike (facts_of cases.now) condition.now test) }
{
    test_rules();
    if let Some(test) = counter_test(alloc, cases, condition)? {
        if have_one_truth(cases, condition, &test) {
            return Ok(test);
        }
    }
    if let Some(test) = flag_test(alloc, cases, tests, condition)? {
        return Ok(test);
    }
    copy_of(alloc, condition)
}

/// `==` for `>=` where all cases give both one truth.
fn sharpened(alloc: Global, cases: &[Case], test: CExpr) -> Result<CExpr, NoMemory>
    ensures { IfOk result (λ new. TestsAlike (facts_of cases.now) test new) }
{
    test_rules();
    if let Some(equal) = equal_test(alloc, &test)? {
        if have_one_truth(cases, &test, &equal) {
            return Ok(equal);
        }
    }
    Ok(test)
}

/// The first of the tests that has the truth of a flag in all cases.
fn flag_test(
    alloc: Global,
    cases: &[Case],
    tests: &[CExpr],
    flag: &CExpr,
) -> Result<Option<CExpr>, NoMemory>
    ensures { IfOk result (λ test. MatchOption test (Unit {0}) (TestsAlike (facts_of cases.now) flag.now)) }
{
    test_rules();
    if !is_local(flag) {
        return Ok(None);
    }
    for test in tests {
        if have_one_truth(cases, flag, test) {
            return Ok(Some(copy_of(alloc, test)?));
        }
    }
    Ok(None)
}

/// Whether a condition is a local.
fn is_local(condition: &CExpr) -> bool {
    match &condition.what {
        CExprKind::Read(at) => !at.through && at.steps.is_empty(),
        _ => false,
    }
}

/// Whether each case tells both conditions, and gives them one truth.
fn have_one_truth(cases: &[Case], one: &CExpr, other: &CExpr) -> bool
    ensures { result ≡ same_tests (facts_of cases.now) one.now other.now }
{
    for case in cases {
        if !has_one_truth(case, one, other) {
            return false;
        }
    }
    true
}

fn has_one_truth(case: &[Entry], one: &CExpr, other: &CExpr) -> bool
    ensures { result ≡ same_truths (number_told one.now (valuation case.now)) (number_told other.now (valuation case.now)) }
{
    match (number_of(case, one), number_of(case, other)) {
        (Some(n), Some(k)) => (n == 1) == (k == 1),
        _ => false,
    }
}
