//! Cases of two branches together, each once.

ghost use Rattle.std.specs.Prelude.{◌≡◌, ◌∷◌, ◌++◌, [], IfOk, OnOk, true};
ghost use Rattle.bl_simplify_facts.specs.Entries.{facts_of, valuation};
ghost use Rattle.bl_simplify_steps.specs.inner.Looser.{Looser};

use bl_simplify_facts::entries::{Case, Entry, copy_of_case};
use bl_simplify_laws::facts::CSpot;
use bl_tree::{List, NoMemory, Text};
use std::alloc::Global;

/// How many cases are told apart.
const MOST: usize = 80;

/// How many entries all cases have together.
const MOST_ENTRIES: usize = 1_600;

/// Whether so many of each of the cases are few enough.
pub fn are_few(cases: &[Case], times: usize) -> bool {
    let entries = entries_in(cases).saturating_mul(times);
    cases.len().saturating_mul(times) <= MOST && entries <= MOST_ENTRIES
}

/// How many entries all cases have together.
fn entries_in(cases: &[Case]) -> usize {
    let mut entries: usize = 0;
    for case in cases {
        entries = entries.saturating_add(case.len());
    }
    entries
}

/// The cases of both, each once.
pub fn together(alloc: Global, cases: List<Case>, others: &[Case]) -> Result<List<Case>, NoMemory>
    ensures { IfOk result (λ all. Looser (facts_of cases ++ facts_of others.now) (facts_of all)) }
{
    let mut all = cases;
    for case in others {
        add_case(alloc, case, &mut all)?;
    }
    Ok(all)
}

/// Adds a case, unless it is there.
pub fn add_case(alloc: Global, case: &[Entry], cases: &mut List<Case>) -> Result<(), NoMemory>
    ensures { OnOk result (Looser (facts_of cases.old ++ valuation case.now ∷ []) (facts_of cases.new)) }
{
    if !has_case(cases, case) {
        cases.push(copy_of_case(alloc, case)?)?;
    }
    Ok(())
}

/// Whether one of the cases is the same.
pub fn has_case(cases: &[Case], asked: &[Entry]) -> bool
    ensures { result ≡ true → Looser (valuation asked.now ∷ []) (facts_of cases.now) }
{
    for case in cases {
        if is_same_case(asked, case) {
            return true;
        }
    }
    false
}

fn is_same_case(a: &[Entry], b: &[Entry]) -> bool
    ensures { result ≡ true → a.now ≡ b.now }
{
    if a.len() != b.len() {
        return false;
    }
    for k in 0..a.len() {
        if !is_same_entry(&a[k], &b[k]) {
            return false;
        }
    }
    true
}

fn is_same_entry(a: &Entry, b: &Entry) -> bool
    ensures { result ≡ true → a.now ≡ b.now }
{
    a.fact == b.fact && is_same_spot(&a.spot, &b.spot)
}

fn is_same_spot(a: &CSpot, b: &CSpot) -> bool
    ensures { result ≡ true → a.now ≡ b.now }
{
    a.through == b.through
        && a.name.as_str() == b.name.as_str()
        && is_same_first(&a.first, &b.first)
}

fn is_same_first(a: &Option<Text>, b: &Option<Text>) -> bool
    ensures { result ≡ true → a.now ≡ b.now }
{
    match (a, b) {
        (Some(a), Some(b)) => a.as_str() == b.as_str(),
        (None, None) => true,
        _ => false,
    }
}
