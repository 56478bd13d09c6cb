//! Which units of a program its entry needs.

ghost use Rattle.std.specs.Prelude.{◌≡◌, IfOk, OnOk, false, map, nat_eq, option_map, slice_get, unwrap_or};
ghost use Rattle.bl_machine.specs.Blocks.{up_to};
ghost use Rattle.bl_emit_spec.specs.Programs as programs;
ghost use Rattle.bl_emit_tables.specs.Needed.{needed_step};

use crate::bools::set_all;
use bl_limits_measures::{activities_run, calls_of};
use bl_tree::slices::element;
use bl_tree::tree::Unit;
use bl_tree::{List, NoMemory};
use std::alloc::Global;

/// One of so many tests is set.
fn one_set(alloc: Global, count: usize, at: u32) -> Result<List<bool>, NoMemory>
    ensures { IfOk result (λ tests. tests ≡ map (λ k. nat_eq k at) (up_to count)) }
{
    let mut tests = List::new(alloc);
    for k in 0..count {
        tests.push(k == at as usize)?;
    }
    Ok(tests)
}

/// The unit needs what it calls and runs.
fn need_by(alloc: Global, unit: &Unit, needed: &mut List<bool>) -> Result<(), NoMemory>
    ensures { OnOk result (needed.new ≡ programs.set_from (programs.needs_of unit.now) 0 needed.old) }
{
    let mut needs = calls_of(alloc, unit)?;
    for run in activities_run(alloc, unit)?.into_vec() {
        needs.push(run)?;
    }
    set_all(needed, &needs);
    Ok(())
}

/// What the unit needs, where there is one.
#[tactic(auto, using(crate::proofs::SetLemmas::set_none))]
fn need_of(alloc: Global, unit: Option<&Unit>, needed: &mut List<bool>) -> Result<(), NoMemory>
    ensures { OnOk result (needed.new ≡ programs.set_from (programs.needs_at (option_map (λ unit. unit.now) unit.entry)) 0 needed.old) }
{
    match unit {
        Some(unit) => need_by(alloc, unit, needed),
        None => Ok(()),
    }
}

fn is_set(tests: &[bool], k: usize) -> bool
    ensures { result ≡ unwrap_or (slice_get tests.now k) false }
{
    match element(tests, k) {
        Some(test) => *test,
        None => false,
    }
}

/// What the unit at the position needs is needed, where it is itself.
fn need_at(alloc: Global, units: &[Unit], k: usize, needed: &mut List<bool>) -> Result<(), NoMemory>
    ensures { OnOk result (needed.new ≡ needed_step k units.now needed.old) }
{
    if is_set(needed, k) {
        need_of(alloc, element(units, k), needed)
    } else {
        Ok(())
    }
}

/// Which of the units the one at the position needs: itself, and what those that are needed call and run. Fails only if memory runs out.
pub fn needed_units(alloc: Global, units: &[Unit], entry: u32) -> Result<List<bool>, NoMemory>
    ensures { IfOk result (λ needed. needed ≡ programs.needed_units units.now entry) }
{
    let mut needed = one_set(alloc, units.len(), entry)?;
    let mut k = units.len();
    while k > 0 {
        k -= 1;
        need_at(alloc, units, k, &mut needed)?;
    }
    Ok(needed)
}
