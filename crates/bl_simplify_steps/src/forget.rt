//! What is still known after something in spots may have changed.

ghost use Rattle.std.specs.Prelude.{◌≡◌, ◌∷◌, [], ◌++◌, IfOk, OnOk, map};
ghost use Rattle.std.specs.List.{list_all};
ghost use Rattle.bl_simplify_laws.specs.Spots.{spots_apart};
ghost use Rattle.bl_simplify_laws.specs.Steps.{without_spots};
ghost use Rattle.bl_simplify_facts.specs.Entries.{facts_of, valuation};

use bl_simplify_facts::entries::{Case, Entry, copy_of_entry};
use bl_simplify_facts::spots::are_apart;
use bl_simplify_laws::facts::CSpot;
use bl_tree::{List, NoMemory};
use std::alloc::Global;

/// Whether a spot has surely nothing in common with any of these.
fn is_apart(gone: &[CSpot], spot: &CSpot) -> bool
    ensures { result ≡ list_all (λ other. spots_apart other spot.now) gone.now }
{
    for other in gone {
        if !are_apart(other, spot) {
            return false;
        }
    }
    true
}

/// Adds what is still known of a case.
pub fn add_without(
    alloc: Global,
    gone: &[CSpot],
    case: &[Entry],
    left: &mut Case,
) -> Result<(), NoMemory>
    ensures { OnOk result (valuation left.new ≡ valuation left.old ++ without_spots gone.now (valuation case.now)) }
{
    for entry in case {
        add_if_apart(alloc, gone, entry, left)?;
    }
    Ok(())
}

/// Adds an entry, where its spot is apart from those that may have changed.
fn add_if_apart(
    alloc: Global,
    gone: &[CSpot],
    entry: &Entry,
    left: &mut Case,
) -> Result<(), NoMemory>
    ensures { OnOk result (valuation left.new ≡ valuation left.old ++ without_spots gone.now ((entry.now.spot, entry.now.fact) ∷ [])) }
{
    if is_apart(gone, &entry.spot) {
        left.push(copy_of_entry(alloc, entry)?)?;
    }
    Ok(())
}

/// What is still known of one case.
fn without(alloc: Global, gone: &[CSpot], case: &[Entry]) -> Result<Case, NoMemory>
    ensures { IfOk result (λ left. valuation left ≡ without_spots gone.now (valuation case.now)) }
{
    let mut left = List::new(alloc);
    add_without(alloc, gone, case, &mut left)?;
    Ok(left)
}

/// What is still known of all cases.
pub fn all_without(alloc: Global, gone: &[CSpot], cases: &[Case]) -> Result<List<Case>, NoMemory>
    ensures { IfOk result (λ left. facts_of left ≡ map (without_spots gone.now) (facts_of cases.now)) }
{
    let mut left = List::new(alloc);
    for case in cases {
        left.push(without(alloc, gone, case)?)?;
    }
    Ok(left)
}

/// Whether what a case knows is of spots apart from these.
fn case_apart(gone: &[CSpot], case: &[Entry]) -> bool
    ensures { result ≡ list_all (λ entry. list_all (λ other. spots_apart other entry.spot) gone.now) case.now }
{
    for entry in case {
        if !is_apart(gone, &entry.spot) {
            return false;
        }
    }
    true
}

/// Whether what any case knows is of spots apart from these.
pub fn all_apart(gone: &[CSpot], cases: &[Case]) -> bool
    ensures { result ≡ list_all (λ case. list_all (λ entry. list_all (λ other. spots_apart other entry.spot) gone.now) case) cases.now }
{
    for case in cases {
        if !case_apart(gone, case) {
            return false;
        }
    }
    true
}
