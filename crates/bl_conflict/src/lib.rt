//! The rules Pause, Conflict, Alias and Instant (docs/LANGUAGE.md, "Rules"), one module each. `check` answers Ok
//! exactly where none of the four fails. Else it names the first that fails, at its least places, with the further
//! places of its line (`Rules.antt` of `bl_effects`, `Fails`); want of memory aside. `check_units` is the same for
//! units that need not be a program's: it looks at nothing but them.
#![tactic(auto, using(crate::proofs::FirstLemmas::firsts))]

ghost use Rattle.std.specs.Prelude.{◌≡◌, None, IfErr, IfOk, OnOk};
ghost use Rattle.bl_tree.specs.Rules.{IsCause, first_of};
ghost use Rattle.bl_conflict.specs.inner.Failures.{failures};
ghost use Rattle.bl_effects.specs.Rules.{Fails, Passes};

mod alias;
mod conflict;
mod instant;
mod marks;
mod pause;
mod touched;

use bl_tree::tree::Unit;
use bl_tree::{Failure, NoMemory, Program, Refusal};
use std::alloc::Global;

/// Judges the rules Pause, Conflict, Alias and Instant: the first that fails, at its least places.
pub fn check(alloc: Global, program: &Program) -> Result<(), Refusal>
    ensures passes { OnOk result (Passes program.now.units) }
    ensures cause { IfErr result (IsCause (Fails program.now.units)) }
{
    check_units(alloc, &program.units)
}

/// Judges the four rules for units that need not be those of a program.
pub fn check_units(alloc: Global, units: &[Unit]) -> Result<(), Refusal>
    ensures passes { OnOk result (Passes units.now) }
    ensures cause { IfErr result (IsCause (Fails units.now)) }
{
    match first_failure(alloc, units) {
        Ok(None) => Ok(()),
        Ok(Some(failure)) => Err(failure.refusal(alloc)),
        Err(NoMemory) => Err(Refusal::NoMemory),
    }
}

/// The first failure of the four rules. Fails only for want of memory.
fn first_failure(alloc: Global, units: &[Unit]) -> Result<Option<Failure>, NoMemory>
    ensures { IfOk result (λ found. found ≡ first_of None (failures units.now)) }
{
    let first = pause::first(units, None);
    let first = conflict::first(alloc, units, first)?;
    let first = alias::first(alloc, units, first)?;
    Ok(instant::first(units, first))
}
