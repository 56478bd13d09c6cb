//! Where the C function of an activity keeps the registers of a pass.

ghost use Rattle.std.specs.Prelude.{◌≡◌, IfOk};
ghost use Rattle.bl_emit_blocks.specs.Views.{view_in};
ghost use Rattle.bl_emit_spec.specs.Names as names;

use crate::view::ActivityView;
use bl_emit_acts::parts::{member_at, numbered, whole, worded};
use bl_emit_tables::node_named;
use bl_tree::c::CPlace;
use bl_tree::{NoMemory, Text};
use std::alloc::Global;

/// A counter.
pub fn counter(alloc: Global, k: u32) -> Result<CPlace, NoMemory>
    ensures { IfOk result (λ place. place ≡ names.counter_place k) }
{
    member_at(alloc, "f", numbered(alloc, "c", u64::from(k))?)
}

/// What it held when the tick began.
pub fn rested(alloc: Global, k: u32) -> Result<CPlace, NoMemory>
    ensures { IfOk result (λ place. place ≡ names.rested_place k) }
{
    Ok(whole(alloc, false, numbered(alloc, "w", u64::from(k))?))
}

/// The flag of the node with this number.
pub fn flag(alloc: Global, view: &ActivityView, k: u32) -> Result<CPlace, NoMemory>
    ensures { IfOk result (λ place. place ≡ names.flag_place (names.with_word (view_in view.entry.now).word k)) }
{
    let name = node_named(alloc, "g", view.words, k)?;
    Ok(whole(alloc, false, name))
}

/// The mark of the `cobegin` or `when` that begins at the node with this number.
pub fn mark(alloc: Global, view: &ActivityView, k: u32) -> Result<CPlace, NoMemory>
    ensures { IfOk result (λ place. place ≡ names.mark_place (names.with_word (view_in view.entry.now).word k)) }
{
    let name = node_named(alloc, "u", view.words, k)?;
    Ok(whole(alloc, false, name))
}

/// Whether the body has ended: the caller's variable.
pub fn over(alloc: Global) -> Result<CPlace, NoMemory>
    ensures { IfOk result (λ place. place ≡ names.over_place) }
{
    Ok(whole(alloc, true, Text::copy_of(alloc, "e")?))
}

/// The result: the caller's variable.
pub fn returned(alloc: Global) -> Result<CPlace, NoMemory>
    ensures { IfOk result (λ place. place ≡ names.result_place) }
{
    Ok(whole(alloc, true, Text::copy_of(alloc, "r")?))
}

/// Whether the body of the activity that was called last has ended.
pub fn ended(alloc: Global) -> Result<CPlace, NoMemory>
    ensures { IfOk result (λ place. place ≡ names.ended_place) }
{
    Ok(whole(alloc, false, Text::copy_of(alloc, "ended")?))
}

/// The result of the activity that a `run` calls, by the number of the place of the `run` and the name of the activity.
pub fn given(alloc: Global, k: u32, word: &str) -> Result<CPlace, NoMemory>
    ensures { IfOk result (λ place. place ≡ names.given_place (record { number = k; word = word.now })) }
{
    Ok(whole(alloc, false, worded(alloc, "r", u64::from(k), word)?))
}

/// Where the activity that a `run` calls rests.
pub fn callee_frame(alloc: Global, k: u32, word: &str) -> Result<CPlace, NoMemory>
    ensures { IfOk result (λ place. place ≡ names.callee_frame (record { number = k; word = word.now })) }
{
    member_at(alloc, "f", worded(alloc, "x", u64::from(k), word)?)
}

/// What it remembers.
pub fn callee_memory(alloc: Global, k: u32, word: &str) -> Result<CPlace, NoMemory>
    ensures { IfOk result (λ place. place ≡ names.callee_memory (record { number = k; word = word.now })) }
{
    member_at(alloc, "m", worded(alloc, "x", u64::from(k), word)?)
}
