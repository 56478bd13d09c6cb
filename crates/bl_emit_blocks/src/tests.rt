//! Trees of tests.

ghost use Rattle.std.specs.Prelude.{◌≡◌, IfOk, map};
ghost use Rattle.bl_emit_blocks.specs.Pairs as steps;
ghost use Rattle.bl_emit_blocks.specs.Numbered.{numbered_ends};
ghost use Rattle.bl_emit_blocks.specs.Views.{view_in};
ghost use Rattle.bl_emit_spec.specs.Blocks as blocks;

use crate::counters::at_slot;
use crate::pairs::Pairs;
use crate::view::ActivityView;
use bl_emit_acts::parts::two;
use bl_emit_functions::parts::truth;
use bl_machine::Slot;
use bl_machine_transitions::Needed;
use bl_tree::c::CExpr;
use bl_tree::{List, NoMemory, Op};
use std::alloc::Global;

/// One more test.
fn paired(alloc: Global, op: Op, pairs: Pairs, test: CExpr) -> Result<Pairs, NoMemory>
    ensures { IfOk result (λ next. next ≡ steps.paired op pairs test) }
{
    let mut made = pairs.made;
    match pairs.waiting {
        None => Ok(Pairs {
            made,
            waiting: Some(test),
        }),
        Some(first) => {
            made.push(two(alloc, op, first, test)?)?;
            Ok(Pairs {
                made,
                waiting: None,
            })
        }
    }
}

/// All of them, with the one that waits.
fn finished(pairs: Pairs) -> Result<List<CExpr>, NoMemory>
    ensures { IfOk result (λ made. made ≡ steps.finished pairs) }
{
    let mut made = pairs.made;
    if let Some(last) = pairs.waiting {
        made.push(last)?;
    }
    Ok(made)
}

/// Tests, two by two.
#[tactic(auto, using(crate::proofs::Trees::paired_more))]
fn paired_all(alloc: Global, op: Op, tests: List<CExpr>) -> Result<Pairs, NoMemory>
    ensures { IfOk result (λ pairs. pairs ≡ steps.paired_all op steps.no_pairs tests) }
{
    let mut pairs = Pairs {
        made: List::new(alloc),
        waiting: None,
    };
    for test in tests.into_vec() {
        pairs = paired(alloc, op, pairs, test)?;
    }
    Ok(pairs)
}

/// The answers of many tests, two by two.
fn in_pairs(alloc: Global, op: Op, tests: List<CExpr>) -> Result<List<CExpr>, NoMemory>
    ensures { IfOk result (λ made. made ≡ blocks.in_pairs op tests) }
{
    finished(paired_all(alloc, op, tests)?)
}

/// The first test; another one where there is none.
fn first(none: CExpr, tests: List<CExpr>) -> CExpr
    ensures { result ≡ steps.first none tests }
{
    match tests.into_vec().into_iter().next() {
        Some(test) => test,
        None => none,
    }
}

/// A tree of tests whose depth grows slowly; so often are tests taken two by two at most.
fn in_tree(
    alloc: Global,
    none: CExpr,
    op: Op,
    turns: usize,
    tests: List<CExpr>,
) -> Result<CExpr, NoMemory>
    ensures { IfOk result (λ e. e ≡ blocks.in_tree none op turns tests) }
{
    if turns == 0 || tests.len() < 2 {
        return Ok(first(none, tests));
    }
    in_tree(alloc, none, op, turns - 1, in_pairs(alloc, op, tests)?)
}

/// All of the tests.
fn all_tests(alloc: Global, tests: List<CExpr>) -> Result<CExpr, NoMemory>
    ensures { IfOk result (λ e. e ≡ blocks.all_tests tests) }
{
    let turns = tests.len();
    in_tree(alloc, truth(true), Op::And, turns, tests)
}

/// Some one.
fn some_test(alloc: Global, tests: List<CExpr>) -> Result<CExpr, NoMemory>
    ensures { IfOk result (λ e. e ≡ blocks.some_test tests) }
{
    let turns = tests.len();
    in_tree(alloc, truth(false), Op::Or, turns, tests)
}

/// Whether the instance is at these numbers.
fn at_slots(alloc: Global, view: &ActivityView, slots: &[Slot]) -> Result<List<CExpr>, NoMemory>
    ensures { IfOk result (λ tests. tests ≡ map (blocks.at_slot (view_in view.entry.now)) slots.now) }
{
    let mut tests = List::new(alloc);
    for slot in slots {
        tests.push(at_slot(alloc, view, *slot)?)?;
    }
    Ok(tests)
}

/// Whether as many branches have ended as are needed.
pub fn ends(alloc: Global, view: &ActivityView, needed: &Needed) -> Result<CExpr, NoMemory>
    ensures { IfOk result (λ e. e ≡ numbered_ends (view_in view.entry.now) needed.now) }
{
    let tests = at_slots(alloc, view, &needed.slots)?;
    if needed.all {
        all_tests(alloc, tests)
    } else {
        some_test(alloc, tests)
    }
}
