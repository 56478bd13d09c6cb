//! Spots of places, and the facts that a case has for them.

ghost use Rattle.std.specs.Prelude.{◌≡◌, IfOk, is_some, map, option_and_then, option_map};
ghost use Rattle.std.specs.List.{list_all};
ghost use Rattle.bl_simplify_laws.specs.Known.{fact_in as fact_in_known, place_is};
ghost use Rattle.bl_simplify_laws.specs.Spots.{firsts_differ as firsts_apart, is_own as is_own_name, same_first, same_spot, spot_of_place, spots_apart};
ghost use Rattle.bl_simplify_facts.specs.Entries.{valuation};
ghost use Rattle.bl_simplify_facts.specs.inner.Told.{spot_named, step_is};

use crate::entries::Entry;
use bl_simplify_laws::facts::{CSpot, Fact};
use bl_tree::c::{CPlace, CStep};
use bl_tree::{NoMemory, Text};
use std::alloc::Global;

// ---- facts

/// The fact of the spot that a place is, where it is one and has a fact.
pub fn fact_at(known: &[Entry], at: &CPlace) -> Option<Fact>
    ensures { result ≡ option_and_then (λ spot. fact_in_known spot (valuation known.now)) (place_is at.now).spot }
{
    match at.steps.as_slice() {
        [] => fact_in(known, at.through, &at.name, None),
        [step] if step.index.is_none() => {
            fact_in(known, at.through, &at.name, Some(&step.member))
        }
        _ => None,
    }
}

/// The fact of a spot, where it has one.
pub fn fact_of(known: &[Entry], spot: &CSpot) -> Option<Fact>
    ensures { result ≡ fact_in_known spot.now (valuation known.now) }
{
    match &spot.first {
        None => fact_in(known, spot.through, &spot.name, None),
        Some(first) => fact_in(known, spot.through, &spot.name, Some(first)),
    }
}

fn fact_in(known: &[Entry], through: bool, name: &str, first: Option<&Text>) -> Option<Fact>
    ensures { result ≡ fact_in_known (spot_named through name.now (option_map (λ t. t.now) first.entry)) (valuation known.now) }
{
    for entry in known {
        if is_named(&entry.spot, through, name, first) {
            return Some(entry.fact);
        }
    }
    None
}

fn is_named(spot: &CSpot, through: bool, name: &str, first: Option<&Text>) -> bool
    ensures { result ≡ same_spot spot.now (spot_named through name.now (option_map (λ t. t.now) first.entry)) }
{
    spot.through == through && spot.name.as_str() == name && is_first(&spot.first, first)
}

fn is_first(of: &Option<Text>, first: Option<&Text>) -> bool
    ensures { result ≡ same_first of.now (option_map (λ t. t.now) first.entry) }
{
    match (of, first) {
        (Some(of), Some(first)) => of.as_str() == first.as_str(),
        (None, None) => true,
        _ => false,
    }
}

// ---- spots of places

/// Whether no index stands in these steps.
pub fn are_steady(steps: &[CStep]) -> bool
    ensures { result ≡ list_all (λ member. is_some member) (map step_is steps.now) }
{
    for step in steps {
        if !is_steady(step) {
            return false;
        }
    }
    true
}

fn is_steady(step: &CStep) -> bool
    ensures { result ≡ is_some (step_is step.now) }
{
    step.index.is_none()
}

/// Whether a place is a spot.
pub fn is_spot(at: &CPlace) -> bool
    ensures { result ≡ is_some (place_is at.now).spot }
{
    match at.steps.as_slice() {
        [] => true,
        [step] => step.index.is_none(),
        _ => false,
    }
}

/// The spot that a place is, where it is one.
pub fn spot_at(alloc: Global, at: &CPlace) -> Result<Option<CSpot>, NoMemory>
    ensures { IfOk result (λ spot. spot ≡ (place_is at.now).spot) }
{
    match at.steps.as_slice() {
        [] => Ok(Some(new_spot(alloc, at.through, &at.name, None)?)),
        [step] if step.index.is_none() => {
            let member = Some(&step.member);
            Ok(Some(new_spot(alloc, at.through, &at.name, member)?))
        }
        _ => Ok(None),
    }
}

/// The spot in which a place lies.
pub fn spot_in(alloc: Global, at: &CPlace) -> Result<CSpot, NoMemory>
    ensures { IfOk result (λ spot. spot ≡ spot_of_place at.now) }
{
    match at.steps.as_slice() {
        [] => new_spot(alloc, at.through, &at.name, None),
        [step, ..] => new_spot(alloc, at.through, &at.name, Some(&step.member)),
    }
}

fn new_spot(
    alloc: Global,
    through: bool,
    name: &str,
    first: Option<&Text>,
) -> Result<CSpot, NoMemory>
    ensures { IfOk result (λ spot. spot ≡ spot_named through name.now (option_map (λ t. t.now) first.entry)) }
{
    let first = match first {
        None => None,
        Some(first) => Some(Text::copy_of(alloc, first)?),
    };
    Ok(CSpot {
        through,
        name: Text::copy_of(alloc, name)?,
        first,
    })
}

// ---- spots that are apart

/// Whether two spots surely have nothing in common.
pub fn are_apart(a: &CSpot, b: &CSpot) -> bool
    ensures { result ≡ spots_apart a.now b.now }
{
    if a.name.as_str() == b.name.as_str() {
        a.through == b.through && firsts_differ(&a.first, &b.first)
    } else {
        !(a.through && b.through) || is_own(&a.name) || is_own(&b.name)
    }
}

fn firsts_differ(a: &Option<Text>, b: &Option<Text>) -> bool
    ensures { result ≡ firsts_apart a.now b.now }
{
    match (a, b) {
        (Some(a), Some(b)) => a.as_str() != b.as_str(),
        _ => false,
    }
}

fn is_own(name: &str) -> bool
    ensures { result ≡ is_own_name name.now }
{
    name == "f" || name == "s"
}
