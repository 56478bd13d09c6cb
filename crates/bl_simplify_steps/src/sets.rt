//! What is known after assignments and calls.

ghost use Rattle.std.specs.Prelude.{◌≡◌, ◌∷◌, [], IfOk, is_some, map, option_and_then};
ghost use Rattle.std.specs.List.{list_all};
ghost use Rattle.bl_simplify_laws.specs.Known.{fact_in, place_is, told};
ghost use Rattle.bl_simplify_laws.specs.Spots.{lent_in, spot_of_place};
ghost use Rattle.bl_simplify_laws.specs.Steps.{after_set as known_after_set, same_whole as are_same_whole, without_spots};
ghost use Rattle.bl_simplify_laws.specs.Written.{written_by};
ghost use Rattle.bl_simplify_facts.specs.Entries.{facts_of, valuation};
ghost use Rattle.bl_simplify_steps.specs.inner.Looser.{set_entry};

use crate::forget::{add_without, all_without};
use crate::written::{add_lent, add_written_by};
use bl_simplify_facts::entries::{Case, Entry};
use bl_simplify_facts::spots::{fact_at, spot_at, spot_in};
use bl_simplify_facts::told::told_fact;
use bl_simplify_laws::facts::{CSpot, Fact};
use bl_tree::c::{CCall, CExpr, CPlace, CStmt};
use bl_tree::{List, NoMemory};
use std::alloc::Global;

/// What all cases know after an assignment.
pub fn after_set(
    alloc: Global,
    cases: &[Case],
    at: &CPlace,
    value: &CExpr,
) -> Result<List<Case>, NoMemory>
    ensures { IfOk result (λ left. facts_of left ≡ map (known_after_set at.now value.now) (facts_of cases.now)) }
{
    let mut gone = List::new(alloc);
    gone.push(spot_in(alloc, at)?)?;
    all_set(alloc, cases, at, value, &gone)
}

fn all_set(
    alloc: Global,
    cases: &[Case],
    at: &CPlace,
    value: &CExpr,
    gone: &[CSpot],
) -> Result<List<Case>, NoMemory>
    requires { gone.now ≡ spot_of_place at.now ∷ [] }
    ensures { IfOk result (λ left. facts_of left ≡ map (known_after_set at.now value.now) (facts_of cases.now)) }
{
    let mut left = List::new(alloc);
    for case in cases {
        left.push(case_set(alloc, case, at, value, gone)?)?;
    }
    Ok(left)
}

/// What one case knows after an assignment.
fn case_set(
    alloc: Global,
    case: &[Entry],
    at: &CPlace,
    value: &CExpr,
    gone: &[CSpot],
) -> Result<Case, NoMemory>
    requires { gone.now ≡ spot_of_place at.now ∷ [] }
    ensures { IfOk result (λ left. valuation left ≡ known_after_set at.now value.now (valuation case.now)) }
{
    let mut left = entry_set(alloc, at, told_fact(case, value))?;
    add_without(alloc, gone, case, &mut left)?;
    Ok(left)
}

fn entry_set(alloc: Global, at: &CPlace, fact: Option<Fact>) -> Result<Case, NoMemory>
    ensures { IfOk result (λ left. valuation left ≡ set_entry at.now fact) }
{
    let mut left = List::new(alloc);
    if let (Some(spot), Some(fact)) = (spot_at(alloc, at)?, fact) {
        left.push(Entry { spot, fact })?;
    }
    Ok(left)
}

/// What all cases know after a call.
pub fn after_call(alloc: Global, cases: &[Case], call: &CCall) -> Result<List<Case>, NoMemory>
    ensures { IfOk result (λ left. facts_of left ≡ map (without_spots (lent_in call.now)) (facts_of cases.now)) }
{
    let mut lent = List::new(alloc);
    add_lent(alloc, call, &mut lent)?;
    all_without(alloc, &lent, cases)
}

/// What all cases know after any statement: what it doesn't write.
pub fn after_any(alloc: Global, cases: &[Case], stmt: &CStmt) -> Result<List<Case>, NoMemory>
    ensures { IfOk result (λ left. facts_of left ≡ map (without_spots (written_by stmt.now)) (facts_of cases.now)) }
{
    let mut written = List::new(alloc);
    add_written_by(alloc, stmt, &mut written)?;
    all_without(alloc, &written, cases)
}

/// Whether each case gives an expression the number that a place has, and nothing beside it.
pub fn all_have(cases: &[Case], at: &CPlace, value: &CExpr) -> bool
    ensures { result ≡ list_all (λ known. are_same_whole ((told value.now).fact known) (option_and_then (λ spot. fact_in spot known) (place_is at.now).spot)) (facts_of cases.now) }
{
    for case in cases {
        if !same_whole(told_fact(case, value), fact_at(case, at)) {
            return false;
        }
    }
    true
}

fn same_whole(a: Option<Fact>, b: Option<Fact>) -> bool
    ensures { result ≡ are_same_whole a b }
{
    match (a, b) {
        (Some(Fact::Is(a)), Some(Fact::Is(b))) => a == b,
        _ => false,
    }
}
