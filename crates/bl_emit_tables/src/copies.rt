//! Which variables of a unit have a copy of what they were when the tick began.

ghost use Rattle.std.specs.Prelude.{◌≡◌, IfOk};
ghost use Rattle.bl_emit_spec.specs.Activities as activities;

use crate::bools::{set_all, unset};
use crate::prevs::prevs_of;
use bl_tree::tree::Unit;
use bl_tree::{List, NoMemory};
use std::alloc::Global;

/// For each variable of the unit whether it has a copy. Fails only if memory runs out.
#[tactic(auto, using(crate::proofs::SetLemmas::copies_are))]
pub fn copies_of(alloc: Global, unit: &Unit) -> Result<List<bool>, NoMemory>
    ensures { IfOk result (λ copies. copies ≡ activities.copies_of unit.now) }
{
    let prevs = prevs_of(alloc, unit)?;
    let mut copies = unset(alloc, unit.vars.len())?;
    set_all(&mut copies, &prevs);
    Ok(copies)
}
