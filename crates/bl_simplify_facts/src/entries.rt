//! What is known at one point of a function: facts of spots in one of several cases.

ghost use Rattle.std.specs.Prelude.{◌≡◌, ◌++◌, IfOk, OnOk};

use bl_simplify_laws::facts::{CSpot, Fact};
use bl_tree::{List, NoMemory, Text};
use std::alloc::Global;

/// A fact of the value of a spot.
#[derive(Drop)]
pub struct Entry {
    pub spot: CSpot,
    pub fact: Fact,
}

/// One case: the facts that hold together. Of a spot that stands twice the first counts.
pub type Case = List<Entry>;

/// A copy of a spot.
pub fn copy_of_spot(alloc: Global, it: &CSpot) -> Result<CSpot, NoMemory>
    ensures { IfOk result (λ copy. copy ≡ it.now) }
{
    let first = match &it.first {
        None => None,
        Some(first) => Some(Text::copy_of(alloc, first)?),
    };
    Ok(CSpot {
        through: it.through,
        name: Text::copy_of(alloc, &it.name)?,
        first,
    })
}

/// A copy of an entry.
pub fn copy_of_entry(alloc: Global, it: &Entry) -> Result<Entry, NoMemory>
    ensures { IfOk result (λ copy. copy ≡ it.now) }
{
    Ok(Entry {
        spot: copy_of_spot(alloc, &it.spot)?,
        fact: it.fact,
    })
}

/// Adds copies of entries.
pub fn add_entries(alloc: Global, it: &[Entry], all: &mut Case) -> Result<(), NoMemory>
    ensures { OnOk result (all.new ≡ all.old ++ it.now) }
{
    for entry in it {
        all.push(copy_of_entry(alloc, entry)?)?;
    }
    Ok(())
}

/// A copy of a case.
pub fn copy_of_case(alloc: Global, it: &[Entry]) -> Result<Case, NoMemory>
    ensures { IfOk result (λ copy. copy ≡ it.now) }
{
    let mut copy = List::new(alloc);
    add_entries(alloc, it, &mut copy)?;
    Ok(copy)
}
