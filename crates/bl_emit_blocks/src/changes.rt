//! What changes at a node.

ghost use Rattle.std.specs.Prelude.{◌≡◌, ◌∷◌, [], IfOk, Some};
ghost use Rattle.bl_emit_acts.specs.Acts.{c_set};
ghost use Rattle.bl_emit_acts.specs.Trees.{c_read};
ghost use Rattle.bl_emit_blocks.specs.Numbered as numbered;
ghost use Rattle.bl_emit_blocks.specs.Views.{view_in};
ghost use Rattle.bl_emit_functions.specs.Trees.{c_if};
ghost use Rattle.bl_emit_spec.specs.Blocks as blocks;
ghost use Rattle.bl_emit_spec.specs.Names.{counter_place, mark_place, with_word};

use crate::counters::value_of;
use crate::places::{counter, flag, mark, over, rested};
use crate::view::ActivityView;
use bl_emit_acts::parts::{joined, read, set, single};
use bl_emit_functions::parts::{choice, truth};
use bl_machine_transitions::Change;
use bl_tree::c::CStmt;
use bl_tree::slices::element;
use bl_tree::{List, NoMemory};
use std::alloc::Global;

/// The flag of a number is set.
fn flag_set(alloc: Global, view: &ActivityView, k: u32) -> Result<CStmt, NoMemory>
    ensures { IfOk result (λ s. s ≡ numbered.flag_set (view_in view.entry.now) k) }
{
    set(alloc, flag(alloc, view, k)?, truth(true))
}

/// The instance rests at a number, or no longer at the counter where that is 0.
fn counter_set(alloc: Global, view: &ActivityView, k: u32, v: u32) -> Result<CStmt, NoMemory>
    ensures { IfOk result (λ s. s ≡ c_set (counter_place k) (blocks.counter_value (view_in view.entry.now).sizes k v)) }
{
    set(alloc, counter(alloc, k)?, value_of(view, k, v))
}

/// A counter gets 0, and so does its copy, where it has one.
fn forgotten(
    alloc: Global,
    view: &ActivityView,
    k: u32,
    read: bool,
) -> Result<List<CStmt>, NoMemory>
    ensures { IfOk result (λ code. code ≡ blocks.forgotten (view_in view.entry.now) k read) }
{
    let mut code = single(alloc, counter_set(alloc, view, k, 0)?)?;
    if read {
        code.push(set(alloc, rested(alloc, k)?, value_of(view, k, 0))?)?;
    }
    Ok(code)
}

/// Whether the counter has a copy of what it held when the tick began.
fn is_read(view: &ActivityView, k: u32) -> bool
    ensures { result ≡ (view_in view.entry.now).is_read k }
{
    match element(view.read, k as usize) {
        Some(read) => *read,
        None => false,
    }
}

/// A `when` that begins at the first node ends.
fn ended(
    alloc: Global,
    view: &ActivityView,
    start: u32,
    surface: u32,
    depth: u32,
) -> Result<CStmt, NoMemory>
    ensures { IfOk result (λ s. s ≡ c_if (c_read (mark_place (with_word (view_in view.entry.now).word start)))
        (numbered.flag_set (view_in view.entry.now) surface ∷ []) (Some (numbered.flag_set (view_in view.entry.now) depth ∷ []))) }
{
    let test = read(mark(alloc, view, start)?);
    let new = single(alloc, flag_set(alloc, view, surface)?)?;
    let old = single(alloc, flag_set(alloc, view, depth)?)?;
    choice(alloc, test, new, Some(old))
}

/// The C of a change.
fn change(alloc: Global, view: &ActivityView, change: Change) -> Result<List<CStmt>, NoMemory>
    ensures { IfOk result (λ code. code ≡ numbered.numbered_change (view_in view.entry.now) change) }
{
    match change {
        Change::SetFlag(k) => single(alloc, flag_set(alloc, view, k)?),
        Change::SetCounter(slot) => {
            single(alloc, counter_set(alloc, view, slot.counter, slot.value)?)
        }
        Change::ClearCounter(k) => single(alloc, counter_set(alloc, view, k, 0)?),
        Change::ClearBoth(k) => forgotten(alloc, view, k, is_read(view, k)),
        Change::SetMark(k) => single(alloc, set(alloc, mark(alloc, view, k)?, truth(true))?),
        Change::EndWhen(start, surface, depth) => {
            single(alloc, ended(alloc, view, start, surface, depth)?)
        }
        Change::Finish => single(alloc, set(alloc, over(alloc)?, truth(true))?),
    }
}

/// Of changes one after another.
pub fn changes(
    alloc: Global,
    view: &ActivityView,
    changes: &[Change],
) -> Result<List<CStmt>, NoMemory>
    ensures { IfOk result (λ code. code ≡ numbered.numbered_changes (view_in view.entry.now) changes.now) }
{
    let mut code = List::new(alloc);
    for each in changes {
        code = joined(code, change(alloc, view, *each)?)?;
    }
    Ok(code)
}
