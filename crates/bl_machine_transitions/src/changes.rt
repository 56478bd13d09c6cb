//! What changes at a node.

ghost use Rattle.std.specs.Prelude.{◌≡◌, ◌+◌, ◌<◌, ◌∷◌, ◌++◌, [], length, replicate, slice_index_or, slice_set, IfOk, OnOk};
ghost use Rattle.std.specs.Prelude.{false, true, if◌then◌else◌};
ghost use Rattle.bl_machine_pass.specs.Transitions.{once};
ghost use Rattle.bl_machine_transitions.specs.Listed.{counters_from, forgotten, freed, when_body_end};
ghost use Rattle.bl_machine_transitions.specs.inner.Joined.{enter_unless_empty, fired, layout_in};

use crate::size::after;
use crate::table::Table;
use crate::transition::Change;
use bl_tree::tree::Guard;
use bl_tree::{List, NoMemory};
use std::alloc::Global;

/// One change.
pub fn one(alloc: Global, change: Change) -> Result<List<Change>, NoMemory>
    ensures { IfOk result (λ all. all ≡ change ∷ []) }
{
    let mut all = List::new(alloc);
    all.push(change)?;
    Ok(all)
}

/// Two changes.
pub fn two(alloc: Global, first: Change, second: Change) -> Result<List<Change>, NoMemory>
    ensures { IfOk result (λ all. all ≡ first ∷ second ∷ []) }
{
    let mut all = List::new(alloc);
    all.push(first)?;
    all.push(second)?;
    Ok(all)
}

/// What a block does where it is entered, which may be empty, and whose first node has the position.
pub fn entered(t: &Table<'_>, empty: bool, k: u32, next: Change) -> Change
    ensures { result ≡ enter_unless_empty (layout_in t.now) empty k next }
{
    if empty {
        next
    } else {
        Change::SetFlag(t.number(k))
    }
}

/// Where the body of a `when` ends, which begins at the node with the position.
pub fn body_ends(t: &Table<'_>, k: u32, instant: bool) -> Result<Change, NoMemory>
    ensures { IfOk result (λ change. change ≡ when_body_end (layout_in t.now) k instant) }
{
    if instant {
        let surface = t.number(after(k, 1)?);
        let depth = t.number(after(k, 3)?);
        Ok(Change::EndWhen(t.number(k), surface, depth))
    } else {
        let depth = t.number(after(k, 2)?);
        Ok(Change::SetFlag(depth))
    }
}

/// A condition that was true.
pub fn fired(t: &Table<'_>, k: u32, guard: Guard, empty: bool, ends: Change, next: Change) -> Change
    ensures { result ≡ fired (layout_in t.now) k guard empty ends next }
{
    match guard {
        Guard::Abort => next,
        Guard::Reset => entered(t, empty, k, ends),
    }
}

/// The least counter of so many places from the position on, and how many counters there are from it to the greatest one.
fn reach(t: &Table<'_>, p: u32, count: u32) -> Result<(u32, usize), NoMemory> {
    let mut low = u32::MAX;
    let mut high = 0;
    for step in 0..count {
        let at = after(p, step)?;
        let counter = t.slot(at).counter;
        low = low.min(counter);
        high = high.max(counter);
    }
    let width = high.saturating_sub(low) as usize;
    Ok((low, width.saturating_add(1)))
}

/// Where a counter stands in a table of so many counters, of which the first one is told. One that doesn't stand there is want of memory.
fn spot(counter: u32, low: u32, width: usize) -> Result<usize, NoMemory>
    ensures counter { IfOk result (λ at. counter ≡ low + at) }
    ensures within { IfOk result (λ at. at < width) }
{
    if counter < low {
        return Err(NoMemory);
    }
    let at = (counter - low) as usize;
    if at >= width {
        return Err(NoMemory);
    }
    Ok(at)
}

/// Adds a counter that was not found before, and marks it at its place in the table.
fn note(
    counter: u32,
    at: usize,
    seen: &mut List<bool>,
    found: &mut List<u32>,
) -> Result<(), NoMemory>
    requires { at < length seen.old }
    ensures table { OnOk result (seen.new ≡ (if slice_index_or seen.old at false then seen.old else slice_set seen.old at true)) }
    ensures found { OnOk result (found.new ≡ (if slice_index_or seen.old at false then found.old else found.old ++ counter ∷ [])) }
{
    if !seen[at] {
        seen.set(at, true);
        found.push(counter)?;
    }
    Ok(())
}

/// A table in which nothing was found.
fn blank(alloc: Global, width: usize) -> Result<List<bool>, NoMemory>
    ensures { IfOk result (λ seen. seen ≡ replicate width false) }
{
    let seen = List::from_vec(vec![in alloc; false; width]?);
    Ok(seen)
}

/// The counters of so many places from the position on, each once.
fn once(alloc: Global, t: &Table<'_>, p: u32, count: u32) -> Result<List<u32>, NoMemory>
    ensures { IfOk result (λ found. found ≡ once (counters_from (layout_in t.now) p count)) }
{
    let reached = reach(t, p, count)?;
    let low = reached.0;
    let mut seen = blank(alloc, reached.1)?;
    let mut found = List::new(alloc);
    for step in 0..count {
        let at = after(p, step)?;
        let slot = t.slot(at);
        let place = spot(slot.counter, low, seen.len())?;
        note(slot.counter, place, &mut seen, &mut found)?;
    }
    Ok(found)
}

/// The counters of so many places are freed, and then that happens.
pub fn freed(
    alloc: Global,
    t: &Table<'_>,
    p: u32,
    count: u32,
    next: Change,
) -> Result<List<Change>, NoMemory>
    ensures { IfOk result (λ all. all ≡ freed (layout_in t.now) p count ++ next ∷ []) }
{
    let counters = once(alloc, t, p, count)?;
    let each = counters.as_slice();
    let mut all = List::new(alloc);
    for k in each {
        all.push(Change::ClearCounter(*k))?;
    }
    all.push(next)?;
    Ok(all)
}

/// They are forgotten, and then that happens.
pub fn forgotten(
    alloc: Global,
    t: &Table<'_>,
    p: u32,
    count: u32,
    next: Change,
) -> Result<List<Change>, NoMemory>
    ensures { IfOk result (λ all. all ≡ forgotten (layout_in t.now) p count ++ next ∷ []) }
{
    let counters = once(alloc, t, p, count)?;
    let each = counters.as_slice();
    let mut all = List::new(alloc);
    for k in each {
        all.push(Change::ClearBoth(*k))?;
    }
    all.push(next)?;
    Ok(all)
}
