//! What the counters of a frame can be wherever its function is called.

ghost use Rattle.std.specs.Prelude.{◌≡◌, ◌∷◌, ◌++◌, [], IfOk, MatchOption, map, true};
ghost use Rattle.bl_simplify_laws.specs.declared.facts.Fact.TheVariants.{Number};
ghost use Rattle.bl_simplify_laws.specs.Rules.{AfterBlock};
ghost use Rattle.bl_simplify_facts.specs.Entries.{facts_of, valuation};
ghost use Rattle.bl_simplify_steps.specs.Entry.{known_from};
ghost use Rattle.bl_simplify_steps.specs.inner.Looser.{Looser};

use crate::frames::untold;
use bl_simplify_facts::entries::{Case, Entry, add_entries, copy_of_spot};
use bl_simplify_facts::told::number_of_spot;
use bl_simplify_laws::facts::{CSpot, Fact};
use bl_simplify_steps::begin::{with_zeros, zeros};
use bl_simplify_steps::cases::{add_case, has_case};
use bl_simplify_steps::counters::add_named;
use bl_simplify_walk::needed::cases_after_all;
use bl_simplify_walk::reach::{Share, is_walked};
use bl_simplify_walk::weight::weight_of_block;
use bl_tree::c::CFunc;
use bl_tree::{List, NoMemory};
use std::alloc::Global;

/// How many cases of counters are told at most.
const MOST: usize = 64;

/// How many counters a frame of which something is told has at most.
const COUNTERS: usize = 16;

/// Whether nothing is told.
pub fn is_untold(cases: &[Case]) -> bool
    ensures { result ≡ true → facts_of cases.now ≡ [] ∷ [] }
{
    match cases {
        [case] => case.is_empty(),
        _ => false,
    }
}

// ---- what is found

/// Facts of the counters of a function's frame of which one holds in each call: they are all 0, or what a call has left.
pub fn reached_in(alloc: Global, function: &CFunc, share: Share) -> Result<List<Case>, NoMemory> {
    let mut counters = List::new(alloc);
    add_named(alloc, &function.body, &mut counters)?;
    let weight = weight_of_block(&function.body);
    if counters.is_empty() || counters.len() > COUNTERS || !is_walked(weight) {
        return untold(alloc);
    }
    match closed(alloc, function, &counters, share.of_nodes(weight))? {
        Some(cases) => Ok(cases),
        None => untold(alloc),
    }
}

/// The cases that calls leave behind one another from 0 on, where they are few.
fn closed(
    alloc: Global,
    function: &CFunc,
    counters: &[CSpot],
    effort: usize,
) -> Result<Option<List<Case>>, NoMemory> {
    let weight = weight_of_block(&function.body);
    let mut cases = List::new(alloc);
    cases.push(all_zero(alloc, counters)?)?;
    let mut left = effort;
    for k in 0..MOST {
        if k >= cases.len() {
            return Ok(Some(cases));
        }
        let exits = exits_of(alloc, function, &cases[k])?;
        left = left.saturating_sub(weight.saturating_mul(entries_in(&exits)));
        if left == 0 || !add_exits(alloc, counters, &exits, &mut cases)? {
            return Ok(None);
        }
    }
    Ok(None)
}

fn entries_in(cases: &[Case]) -> usize {
    let mut entries: usize = 1;
    for case in cases {
        entries = entries.saturating_add(case.len());
    }
    entries
}

/// Each counter 0.
fn all_zero(alloc: Global, counters: &[CSpot]) -> Result<Case, NoMemory> {
    let mut case = List::new(alloc);
    for counter in counters {
        case.push(Entry {
            spot: copy_of_spot(alloc, counter)?,
            fact: Fact::Number(0),
        })?;
    }
    Ok(case)
}

/// Adds what exits tell of counters, each case once. Whether each exit tells all of them.
fn add_exits(
    alloc: Global,
    counters: &[CSpot],
    exits: &[Case],
    cases: &mut List<Case>,
) -> Result<bool, NoMemory> {
    for exit in exits {
        match told_of(alloc, counters, exit)? {
            Some(case) => add_case(alloc, &case, cases)?,
            None => return Ok(false),
        }
    }
    Ok(true)
}

// ---- what is left

/// What is known after a function's body, where one case of its frame held before.
fn exits_of(alloc: Global, function: &CFunc, case: &[Entry]) -> Result<List<Case>, NoMemory>
    ensures { IfOk result (λ exits. AfterBlock (known_from (valuation case.now ∷ []) function.now) function.now.body (facts_of exits)) }
{
    let cases = case_at_start(alloc, function, case)?;
    cases_after_all(alloc, cases, &function.body)
}

/// What is known where a function begins in one case of its frame.
fn case_at_start(alloc: Global, function: &CFunc, case: &[Entry]) -> Result<List<Case>, NoMemory>
    ensures { IfOk result (λ cases. facts_of cases ≡ known_from (valuation case.now ∷ []) function.now) }
{
    let none = zeros(alloc, &function.params, &function.locals)?;
    let start = with_zeros(alloc, case, &none)?;
    let mut cases = List::new(alloc);
    cases.push(start)?;
    Ok(cases)
}

/// The numbers of counters, where a case tells each of them.
fn told_of(alloc: Global, counters: &[CSpot], case: &[Entry]) -> Result<Option<Case>, NoMemory>
    ensures { IfOk result (λ told. MatchOption told (Unit {0}) (λ it. Looser (valuation case.now ∷ []) (valuation it ∷ []))) }
{
    let mut told = List::new(alloc);
    for k in (0..counters.len()).rev() {
        match with_told(alloc, &counters[k], case, &told)? {
            Some(more) => told = more,
            None => return Ok(None),
        }
    }
    Ok(Some(told))
}

/// What is told with the number of one more counter before it, where a case tells that.
fn with_told(
    alloc: Global,
    counter: &CSpot,
    case: &[Entry],
    told: &[Entry],
) -> Result<Option<Case>, NoMemory>
    requires { Looser (valuation case.now ∷ []) (valuation told.now ∷ []) }
    ensures { IfOk result (λ more. MatchOption more (Unit {0}) (λ it. Looser (valuation case.now ∷ []) (valuation it ∷ []))) }
{
    match number_of_spot(case, counter) {
        Some(n) => Ok(Some(before(alloc, counter, n, told)?)),
        None => Ok(None),
    }
}

/// A case with one more number before its entries.
fn before(alloc: Global, counter: &CSpot, n: i128, case: &[Entry]) -> Result<Case, NoMemory>
    ensures { IfOk result (λ told. valuation told ≡ (counter.now, Number n) ∷ valuation case.now) }
{
    let mut told = List::new(alloc);
    told.push(Entry {
        spot: copy_of_spot(alloc, counter)?,
        fact: Fact::Number(n),
    })?;
    add_entries(alloc, case, &mut told)?;
    Ok(told)
}

/// The spots of a case.
fn spots_of(alloc: Global, case: &[Entry]) -> Result<List<CSpot>, NoMemory> {
    let mut spots = List::new(alloc);
    for entry in case {
        spots.push(copy_of_spot(alloc, &entry.spot)?)?;
    }
    Ok(spots)
}

/// Whether what an exit tells is one of the cases.
fn is_reached(
    alloc: Global,
    counters: &[CSpot],
    exit: &[Entry],
    reached: &[Case],
) -> Result<bool, NoMemory>
    ensures { IfOk result (λ all. all ≡ true → Looser (valuation exit.now ∷ []) (facts_of reached.now)) }
{
    match told_of(alloc, counters, exit)? {
        Some(case) => Ok(has_case(reached, &case)),
        None => Ok(false),
    }
}

fn are_reached(
    alloc: Global,
    counters: &[CSpot],
    exits: &[Case],
    reached: &[Case],
) -> Result<bool, NoMemory>
    ensures { IfOk result (λ all. all ≡ true → Looser (facts_of exits.now) (facts_of reached.now)) }
{
    let mut all = true;
    for exit in exits {
        let here = is_reached(alloc, counters, exit, reached)?;
        all &= here;
    }
    Ok(all)
}

/// Whether one of the cases holds after a function's body where this one held before.
fn is_left(
    alloc: Global,
    function: &CFunc,
    case: &[Entry],
    reached: &[Case],
) -> Result<bool, NoMemory>
    ensures { IfOk result (λ left. left ≡ true → AfterBlock (known_from (valuation case.now ∷ []) function.now) function.now.body (facts_of reached.now)) }
{
    let counters = spots_of(alloc, case)?;
    let exits = exits_of(alloc, function, case)?;
    are_reached(alloc, &counters, &exits, reached)
}

/// Whether one of the cases holds after a function's body where one of them held before.
pub fn are_left(alloc: Global, function: &CFunc, reached: &[Case]) -> Result<bool, NoMemory>
    ensures { IfOk result (λ left. left ≡ true → AfterBlock (known_from (facts_of reached.now) function.now) function.now.body (facts_of reached.now)) }
{
    let mut all = true;
    for case in reached {
        let here = is_left(alloc, function, case, reached)?;
        all &= here;
    }
    Ok(all)
}
