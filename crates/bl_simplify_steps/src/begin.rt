//! What is known where a function begins.

ghost use Rattle.std.specs.Prelude.{◌≡◌, ◌∷◌, ◌++◌, ◌≤◌, IfOk, MatchOption, OnOk, map};
ghost use Rattle.bl_simplify_laws.specs.Rules.{Weaker, classes, zero_names};
ghost use Rattle.bl_simplify_laws.specs.Tables.{has_name};
ghost use Rattle.bl_simplify_facts.specs.Entries.{facts_of, valuation};
ghost use Rattle.bl_simplify_steps.specs.Entry.{known_from};
ghost use Rattle.bl_simplify_steps.specs.inner.Begin.{parted, zero_of};
ghost use Rattle.bl_simplify_steps.specs.inner.Looser.{Looser};

use crate::cases::are_few;
use crate::counters::{add_counters, greatest_of};
use bl_simplify_facts::entries::{Case, Entry, add_entries, copy_of_spot};
use bl_simplify_facts::spots::fact_of;
use bl_simplify_laws::facts::{CSpot, Fact};
use bl_simplify_laws::rules::block_rules;
use bl_tree::c::{CFunc, CLocal, CParam, CStmt};
use bl_tree::{List, NoMemory, Text};
use std::alloc::Global;

/// The greatest number by which the numbers of a counter are told apart.
const GREATEST: i128 = 39;

/// What is known where a function begins in one of these cases: its locals are 0, and the numbers of other counters are one of
/// those that it tests, or below or above them.
pub fn cases_at_entry(
    alloc: Global,
    reached: &[Case],
    function: &CFunc,
) -> Result<List<Case>, NoMemory>
    ensures { IfOk result (λ cases. Weaker (known_from (facts_of reached.now) function.now) (facts_of cases)) }
{
    let none = zeros(alloc, &function.params, &function.locals)?;
    let cases = all_with_zeros(alloc, reached, &none)?;
    let mut counters = List::new(alloc);
    add_counters(alloc, &function.body, &mut counters)?;
    all_cut(alloc, cases, &counters, &function.body)
}

// ---- locals

/// 0 for each local that is no parameter.
pub fn zeros(alloc: Global, params: &[CParam], locals: &[CLocal]) -> Result<Case, NoMemory>
    ensures { IfOk result (λ case. valuation case ≡ zero_names (map (λ p. p.name) params.now) (map (λ l. l.name) locals.now)) }
{
    let mut case = List::new(alloc);
    for local in locals {
        if !is_param(params, &local.name) {
            case.push(zero(alloc, &local.name)?)?;
        }
    }
    Ok(case)
}

fn is_param(params: &[CParam], name: &str) -> bool
    ensures { result ≡ has_name (map (λ p. p.name) params.now) name.now }
{
    for param in params {
        if param.name.as_str() == name {
            return true;
        }
    }
    false
}

fn zero(alloc: Global, name: &str) -> Result<Entry, NoMemory>
    ensures { IfOk result (λ entry. entry ≡ zero_of name.now) }
{
    Ok(Entry {
        spot: CSpot {
            through: false,
            name: Text::copy_of(alloc, name)?,
            first: None,
        },
        fact: Fact::Is(0),
    })
}

/// A case in which locals are 0 as well.
pub fn with_zeros(alloc: Global, case: &[Entry], none: &[Entry]) -> Result<Case, NoMemory>
    ensures { IfOk result (λ new. valuation new ≡ valuation case.now ++ valuation none.now) }
{
    let mut new = List::new(alloc);
    add_entries(alloc, case, &mut new)?;
    add_entries(alloc, none, &mut new)?;
    Ok(new)
}

fn all_with_zeros(alloc: Global, cases: &[Case], none: &[Entry]) -> Result<List<Case>, NoMemory>
    ensures { IfOk result (λ all. facts_of all ≡ map (λ known. known ++ valuation none.now) (facts_of cases.now)) }
{
    let mut all = List::new(alloc);
    for case in cases {
        all.push(with_zeros(alloc, case, none)?)?;
    }
    Ok(all)
}

// ---- counters

/// The cases with the numbers of counters told apart, as far as they stay few.
fn all_cut(
    alloc: Global,
    cases: List<Case>,
    counters: &[CSpot],
    body: &[CStmt],
) -> Result<List<Case>, NoMemory>
    ensures { IfOk result (λ all. Looser (facts_of cases) (facts_of all)) }
{
    let mut all = cases;
    for counter in counters {
        if let Some(count) = classes_of(greatest_untold(&all, body, counter)) {
            if are_few(&all, count + 2) {
                all = cut_by(alloc, &all, counter, count)?;
            }
        }
    }
    Ok(all)
}

/// The greatest number with which a body compares a counter of which the first case knows nothing, else -1.
fn greatest_untold(cases: &[Case], body: &[CStmt], counter: &CSpot) -> i128 {
    match cases {
        [case, ..] if fact_of(case, counter).is_none() => greatest_of(body, counter),
        _ => -1,
    }
}

/// How many numbers are told apart from below and above, where a counter is tested by some number and not by too great ones.
fn classes_of(greatest: i128) -> Option<usize>
    ensures { MatchOption result (Unit {0}) (λ count. count ≤ 40) }
{
    if 0 <= greatest && greatest <= GREATEST {
        Some((greatest + 1) as usize)
    } else {
        None
    }
}

/// Each case with each of the facts that part the numbers of a counter.
fn cut_by(
    alloc: Global,
    cases: &[Case],
    counter: &CSpot,
    count: usize,
) -> Result<List<Case>, NoMemory>
    ensures { IfOk result (λ all. Looser (facts_of cases.now) (facts_of all)) }
{
    block_rules();
    let parts = parts_of(alloc, count)?;
    each_cut(alloc, cases, counter, &parts)
}

fn parts_of(alloc: Global, count: usize) -> Result<List<Fact>, NoMemory>
    ensures { IfOk result (λ parts. parts ≡ classes count) }
{
    let mut parts = List::new(alloc);
    parts.push(Fact::AtMost(-1))?;
    for k in 0..count {
        parts.push(Fact::Number(k as i128))?;
    }
    parts.push(Fact::AtLeast(count as i128))?;
    Ok(parts)
}

fn each_cut(
    alloc: Global,
    cases: &[Case],
    counter: &CSpot,
    parts: &[Fact],
) -> Result<List<Case>, NoMemory>
    ensures { IfOk result (λ all. facts_of all ≡ parted counter.now parts.now (facts_of cases.now)) }
{
    let mut all = List::new(alloc);
    for case in cases {
        add_parts(alloc, case, counter, parts, &mut all)?;
    }
    Ok(all)
}

/// Adds a case with each of these facts of a counter.
fn add_parts(
    alloc: Global,
    case: &[Entry],
    counter: &CSpot,
    parts: &[Fact],
    all: &mut List<Case>,
) -> Result<(), NoMemory>
    ensures { OnOk result (facts_of all.new ≡ facts_of all.old ++ map (λ fact. (counter.now, fact) ∷ valuation case.now) parts.now) }
{
    for part in parts {
        all.push(with_fact(alloc, counter, *part, case)?)?;
    }
    Ok(())
}

/// A case with one more fact before its others.
fn with_fact(alloc: Global, spot: &CSpot, fact: Fact, case: &[Entry]) -> Result<Case, NoMemory>
    ensures { IfOk result (λ new. valuation new ≡ (spot.now, fact) ∷ valuation case.now) }
{
    let mut new = List::new(alloc);
    let spot = copy_of_spot(alloc, spot)?;
    new.push(Entry { spot, fact })?;
    add_entries(alloc, case, &mut new)?;
    Ok(new)
}
