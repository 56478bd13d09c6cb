//! The rules Frames and Cells (docs/LANGUAGE.md, "Rules"), by the measures of the program. `check` answers Ok exactly
//! where neither fails. Else it names the first that fails, at its least place (`specs/Rules.antt`, `Fails`); want of
//! memory aside. No instance is expanded. `check_nesting` judges structs and units without an entry, by nesting alone.
#![tactic(auto, using(crate::proofs::Lists::firsts))]

ghost use Rattle.std.specs.Prelude.{◌≡◌, IfErr, IfOk, None, OnOk};
ghost use Rattle.bl_tree.specs.Rules.{IsCause, first_of};
ghost use Rattle.bl_limits.specs.Rules.{Fails, NestingFails, NestingPasses, Passes};
ghost use Rattle.bl_limits.specs.inner.Failures.{failures, nesting_failures};

mod cells;
mod frames;
mod limit;
mod nesting;

use bl_limits_measures::Measures;
use bl_tree::tree::{StructDef, Unit};
use bl_tree::{Failure, NoMemory, Program, Refusal};
use std::alloc::Global;

/// Judges the rules Frames and Cells: the first that fails, at its least place.
pub fn check(alloc: Global, program: &Program) -> Result<(), Refusal>
    ensures passes { OnOk result (Passes program.now.structs program.now.units program.now.entry) }
    ensures cause { IfErr result (IsCause (Fails program.now.structs program.now.units program.now.entry)) }
{
    check_parts(alloc, &program.structs, &program.units, program.entry)
}

fn check_parts(
    alloc: Global,
    structs: &[StructDef],
    units: &[Unit],
    entry: u32,
) -> Result<(), Refusal>
    ensures passes { OnOk result (Passes structs.now units.now entry) }
    ensures cause { IfErr result (IsCause (Fails structs.now units.now entry)) }
{
    match first_failure(alloc, structs, units, entry) {
        Ok(None) => Ok(()),
        Ok(Some(failure)) => Err(failure.refusal(alloc)),
        Err(NoMemory) => Err(Refusal::NoMemory),
    }
}

/// The first failure of the two rules. Fails only for want of memory.
fn first_failure(
    alloc: Global,
    structs: &[StructDef],
    units: &[Unit],
    entry: u32,
) -> Result<Option<Failure>, NoMemory>
    ensures { IfOk result (λ found. found ≡ first_of None (failures structs.now units.now entry)) }
{
    let measures = Measures::of_parts(alloc, structs, units)?;
    let first = frames::of_entry(&measures, structs, units, entry, None);
    let first = frames::of_chains(&measures, structs, units, first);
    let first = cells::of_entry(&measures, structs, units, entry, first);
    Ok(nesting::of_parts(&measures, structs, 0, units, first))
}

/// Judges the part of rule Cells that has no entry: the nesting of the structs from the position on, and of the variables
/// of the units, which may name all of the structs. Of those that are nested too deep it names the one at the least place.
pub fn check_nesting(
    alloc: Global,
    structs: &[StructDef],
    from: usize,
    units: &[Unit],
) -> Result<(), Refusal>
    ensures passes { OnOk result (NestingPasses from structs.now units.now) }
    ensures cause { IfErr result (IsCause (NestingFails from structs.now units.now)) }
{
    match first_nesting(alloc, structs, from, units) {
        Ok(None) => Ok(()),
        Ok(Some(failure)) => Err(failure.refusal(alloc)),
        Err(NoMemory) => Err(Refusal::NoMemory),
    }
}

/// The first failure by nesting. Fails only for want of memory.
fn first_nesting(
    alloc: Global,
    structs: &[StructDef],
    from: usize,
    units: &[Unit],
) -> Result<Option<Failure>, NoMemory>
    ensures { IfOk result (λ found. found ≡ first_of None (nesting_failures from structs.now units.now)) }
{
    let measures = Measures::of_parts(alloc, structs, units)?;
    Ok(nesting::of_parts(&measures, structs, from, units, None))
}
