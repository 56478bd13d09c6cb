//! What is asked before a node acts.

ghost use Rattle.std.specs.Prelude.{◌≡◌, IfOk};
ghost use Rattle.bl_emit_blocks.specs.Numbered as numbered;
ghost use Rattle.bl_emit_blocks.specs.Views.{view_in};
ghost use Rattle.bl_emit_spec.specs.Blocks.{entered_by};

use crate::counters::{rested_at, rested_in};
use crate::places::{flag, mark};
use crate::tests::ends;
use crate::view::ActivityView;
use bl_emit_acts::parts::{negated, read, two};
use bl_machine_transitions::{Age, Condition};
use bl_tree::c::CExpr;
use bl_tree::{NoMemory, Op};
use std::alloc::Global;

/// A test, of a `cobegin` of that age.
fn aged(alloc: Global, view: &ActivityView, age: Age, ends: CExpr) -> Result<CExpr, NoMemory>
    ensures { IfOk result (λ e. e ≡ numbered.numbered_aged (view_in view.entry.now) age ends) }
{
    match age {
        Age::New(k) => two(alloc, Op::And, read(mark(alloc, view, k)?), ends),
        Age::Old(k) => {
            let marked = read(mark(alloc, view, k)?);
            two(alloc, Op::And, negated(alloc, marked)?, ends)
        }
        Age::Any => Ok(ends),
    }
}

/// What is asked before the node with this number acts.
pub fn guard(
    alloc: Global,
    view: &ActivityView,
    number: u32,
    condition: &Condition,
) -> Result<CExpr, NoMemory>
    ensures { IfOk result (λ e. e ≡ numbered.numbered_guard (view_in view.entry.now) number condition.now) }
{
    match condition {
        Condition::Flagged => Ok(read(flag(alloc, view, number)?)),
        Condition::Rested(slot) => rested_at(alloc, view, *slot),
        Condition::RestedIn(slots) => rested_in(alloc, view, slots),
        Condition::Ended(age, needed) => aged(alloc, view, *age, ends(alloc, view, needed)?),
    }
}

/// The test of a block, where the block before it may have left it a call: its own, or the flag of that block too.
pub fn entered(
    alloc: Global,
    view: &ActivityView,
    before: Option<u32>,
    test: CExpr,
) -> Result<CExpr, NoMemory>
    ensures { IfOk result (λ e. e ≡ entered_by (view_in view.entry.now).word before test) }
{
    match before {
        Some(k) => two(alloc, Op::Or, read(flag(alloc, view, k)?), test),
        None => Ok(test),
    }
}
