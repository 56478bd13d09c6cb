//! Numbers of counters, and comparisons of what counters held.

ghost use Rattle.std.specs.Prelude.{◌≡◌, IfOk};
ghost use Rattle.bl_tree.specs.declared.scalar.Scalar.TheVariants.{Nat};
ghost use Rattle.bl_emit_acts.specs.Trees.{c_read, c_two};
ghost use Rattle.bl_emit_blocks.specs.Views.{view_in};
ghost use Rattle.bl_emit_spec.specs.Blocks as blocks;
ghost use Rattle.bl_emit_spec.specs.Names.{rested_place};

use crate::places::{counter, rested};
use crate::view::ActivityView;
use bl_emit_acts::hidden;
use bl_emit_acts::parts::{literal, read, two};
use bl_emit_functions::parts::truth;
use bl_machine::Slot;
use bl_tree::c::CExpr;
use bl_tree::slices::element;
use bl_tree::{NoMemory, Op, Scalar, Width};
use std::alloc::Global;

/// The width of the narrowest unsigned type for a counter of so many values beside 0.
fn width_for(n: u32) -> Width
    ensures { Nat result ≡ blocks.type_for n }
{
    if n <= 255 {
        Width::W8
    } else if n <= 65535 {
        Width::W16
    } else {
        Width::W32
    }
}

/// The greatest value that a counter can hold, which is how many values it has beside 0.
fn greatest_value(view: &ActivityView, k: u32) -> u32
    ensures { result ≡ blocks.greatest_value (view_in view.entry.now).sizes k }
{
    match element(view.sizes, k as usize) {
        Some(n) => *n,
        None => 0,
    }
}

/// The width of a counter's type.
pub fn width_of(view: &ActivityView, k: u32) -> Width
    ensures { Nat result ≡ blocks.counter_type (view_in view.entry.now).sizes k }
{
    width_for(greatest_value(view, k))
}

/// A value of a counter.
pub fn value_of(view: &ActivityView, k: u32, v: u32) -> CExpr
    ensures { result ≡ blocks.counter_value (view_in view.entry.now).sizes k v }
{
    literal(Scalar::Nat(width_of(view, k)), v as i128)
}

/// Whether the instance is at the number.
pub fn at_slot(alloc: Global, view: &ActivityView, slot: Slot) -> Result<CExpr, NoMemory>
    ensures { IfOk result (λ e. e ≡ blocks.at_slot (view_in view.entry.now) slot) }
{
    let at = read(counter(alloc, slot.counter)?);
    two(alloc, Op::Eq, at, value_of(view, slot.counter, slot.value))
}

/// Whether the counter can hold no value above this one.
fn is_greatest(view: &ActivityView, k: u32, v: u32) -> bool
    ensures { result ≡ blocks.is_greatest (view_in view.entry.now).sizes k v }
{
    greatest_value(view, k) <= v
}

/// A comparison of what a counter held when the tick began with a value.
fn compared(alloc: Global, view: &ActivityView, op: Op, k: u32, v: u32) -> Result<CExpr, NoMemory>
    ensures { IfOk result (λ e. e ≡ c_two op (c_read (rested_place k)) (blocks.counter_value (view_in view.entry.now).sizes k v)) }
{
    two(alloc, op, read(rested(alloc, k)?), value_of(view, k, v))
}

/// Whether the counter held the value or one above it when the tick began; of 1, whether it didn't hold 0.
fn rested_since(alloc: Global, view: &ActivityView, k: u32, least: u32) -> Result<CExpr, NoMemory>
    ensures { IfOk result (λ e. e ≡ blocks.rested_since (view_in view.entry.now) k least) }
{
    if least == 1 {
        compared(alloc, view, Op::Ne, k, 0)
    } else {
        compared(alloc, view, Op::Ge, k, least)
    }
}

/// Whether the instance rested at the number when the tick began.
pub fn rested_at(alloc: Global, view: &ActivityView, slot: Slot) -> Result<CExpr, NoMemory>
    ensures { IfOk result (λ e. e ≡ blocks.rested_at (view_in view.entry.now) slot) }
{
    if is_greatest(view, slot.counter, slot.value) {
        rested_since(alloc, view, slot.counter, slot.value)
    } else {
        compared(alloc, view, Op::Eq, slot.counter, slot.value)
    }
}

/// Whether the counter held one of the values from the first to the last.
fn rested_between(
    alloc: Global,
    view: &ActivityView,
    k: u32,
    least: u32,
    greatest: u32,
) -> Result<CExpr, NoMemory>
    ensures { IfOk result (λ e. e ≡ blocks.rested_between (view_in view.entry.now) k least greatest) }
{
    let from = compared(alloc, view, Op::Ge, k, least)?;
    let of = Scalar::Nat(width_of(view, k));
    let last = hidden(alloc, of, value_of(view, k, greatest))?;
    let to = two(alloc, Op::Le, read(rested(alloc, k)?), last)?;
    two(alloc, Op::And, from, to)
}

/// Whether the counter held one of the values from the first to the last, by one comparison where it can hold none above the last.
fn rested_within(
    alloc: Global,
    view: &ActivityView,
    k: u32,
    least: u32,
    greatest: u32,
) -> Result<CExpr, NoMemory>
    ensures { IfOk result (λ e. e ≡ blocks.rested_within (view_in view.entry.now) k least greatest) }
{
    if is_greatest(view, k, greatest) {
        rested_since(alloc, view, k, least)
    } else {
        rested_between(alloc, view, k, least, greatest)
    }
}

/// The last of some values.
fn last_value(v: u32, slots: &[Slot]) -> u32
    ensures { result ≡ blocks.last_value v slots.now }
{
    let mut last = v;
    for slot in slots {
        last = slot.value;
    }
    last
}

/// Whether it rested at one of these numbers, which have one counter and values that follow one another.
pub fn rested_in(alloc: Global, view: &ActivityView, slots: &[Slot]) -> Result<CExpr, NoMemory>
    ensures { IfOk result (λ e. e ≡ blocks.rested_in (view_in view.entry.now) slots.now) }
{
    match slots {
        [] => Ok(truth(false)),
        [slot] => rested_at(alloc, view, *slot),
        [slot, ..] => {
            let last = last_value(slot.value, slots);
            rested_within(alloc, view, slot.counter, slot.value, last)
        }
    }
}
