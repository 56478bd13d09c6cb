//! The instances to which a program expands.

ghost use Rattle.std.specs.Prelude.{◌≡◌, ◌<◌, ◌≤◌, ◌+◌, ◌^◌, [], ◌∷◌, ◌++◌, ◌||◌, All};
ghost use Rattle.std.specs.Prelude.{cond, length, map, not, IfOk, OnOk};
ghost use Rattle.std.specs.List.{list_any};
ghost use Rattle.bl_ctree.specs.Instances.{called_from, expanded, instances_below, instances_of, one_a_place, origin_under, runs_of, setting_of};
ghost use Rattle.bl_tree.specs.Rules.{same_place};
ghost use Rattle.bl_ctree_store.specs.inner.Expansion.{Sees, Shifts, has_place, starts_at};
ghost use Rattle.bl_ctree_store.specs.Seen.{setting_in};

use crate::index::Callees;
use crate::setting::Setting;
use bl_ctree::instance::{Instance, Origin, Run};
use bl_ctree::paths::copies_of;
use bl_ctree::runs::all_in;
use bl_tree::slices::element;
use bl_tree::tree::Unit;
use bl_tree::{List, NoMemory, Place, Program};
use std::alloc::{AllocError, Global};
use std::collections::BTreeSet;

/// Adds the place, and tells whether it is new.
fn see(seen: &mut BTreeSet<(u32, u32)>, place: Place) -> Result<bool, NoMemory>
    ensures fresh { IfOk result (λ fresh. fresh ≡ not (has_place seen.old place)) }
    ensures seen { OnOk result ((q : _) → has_place seen.new q ≡ (same_place place q || has_place seen.old q)) }
{
    match seen.insert((place.start, place.end)) {
        Ok(fresh) => Ok(fresh),
        Err(e) => Err(AllocError::from(e).into()),
    }
}

/// Appends the `run` statement where none of its place is there.
fn add(run: Run, seen: &mut BTreeSet<(u32, u32)>, into: &mut List<Run>) -> Result<(), NoMemory>
    requires { Sees seen.old into.old }
    ensures kept { OnOk result (into.new ≡ cond (list_any (starts_at run.place) into.old) into.old (into.old ++ run ∷ [])) }
    ensures seen { OnOk result (Sees seen.new into.new) }
{
    let fresh = see(seen, run.place)?;
    if !fresh {
        return Ok(());
    }
    into.push(run)?;
    Ok(())
}

/// The first of each place.
fn one_a_place(alloc: Global, runs: List<Run>) -> Result<List<Run>, NoMemory>
    ensures { IfOk result (λ kept. kept ≡ one_a_place runs) }
{
    let mut kept = List::new(alloc);
    let mut seen = BTreeSet::new(alloc);
    for run in runs.into_vec() {
        add(run, &mut seen, &mut kept)?;
    }
    Ok(kept)
}

/// The `run` statements of a unit, in source order; those of one place count once.
fn runs_of(alloc: Global, unit: &Unit) -> Result<List<Run>, NoMemory>
    ensures { IfOk result (λ runs. runs ≡ runs_of unit.now) }
{
    one_a_place(alloc, all_in(alloc, unit)?)
}

fn origin_under(
    alloc: Global,
    n: u32,
    run: &Run,
    origin: Option<Origin>,
) -> Result<Option<Origin>, NoMemory>
    requires { Shifts n origin }
    ensures { IfOk result (λ made. made ≡ origin_under n run.now origin) }
{
    match origin {
        None => Ok(Some(Origin {
            caller: 0,
            place: run.place,
            outputs: copies_of(alloc, &run.outputs)?,
        })),
        Some(mut origin) => {
            origin.caller += n;
            Ok(Some(origin))
        }
    }
}

/// An instance below the `run` statement, whose own instances are numbered from n on.
fn called_from(alloc: Global, n: u32, run: &Run, instance: Instance) -> Result<Instance, NoMemory>
    requires shift { Shifts n instance.origin }
    requires depth { instance.depth + 1 < 2 ^ 32 }
    ensures { IfOk result (λ made. made ≡ called_from n run.now instance) }
{
    let Instance {
        unit,
        depth,
        origin,
    } = instance;
    Ok(Instance {
        unit,
        depth: depth + 1,
        origin: origin_under(alloc, n, run, origin)?,
    })
}

fn append_called(
    alloc: Global,
    n: u32,
    run: &Run,
    alone: List<Instance>,
    into: &mut List<Instance>,
) -> Result<(), NoMemory>
    requires shift { All (λ x. Shifts n x.origin) alone }
    requires depth { All (λ x. x.depth + 1 < 2 ^ 32) alone }
    ensures { OnOk result (into.new ≡ into.old ++ map (called_from n run.now) alone) }
{
    for instance in alone.into_vec() {
        into.push(called_from(alloc, n, run, instance)?)?;
    }
    Ok(())
}

/// The instances that the unit at the position expands to, where chains of `run` statements are no longer than this.
#[cycle(expanding)]
fn expanded(
    alloc: Global,
    units: &[Unit],
    longest: usize,
    k: u32,
) -> Result<List<Instance>, NoMemory>
    requires few { length (expanded units.now longest k) < 2 ^ 32 }
    requires short { longest ≤ 2 ^ 32 }
    ensures { IfOk result (λ all. all ≡ expanded units.now longest k) }
{
    if longest == 0 {
        return Ok(List::new(alloc));
    }
    match element(units, k as usize) {
        None => Ok(List::new(alloc)),
        Some(unit) => from_unit(alloc, units, longest - 1, k, unit),
    }
}

#[cycle(expanding)]
fn from_unit(
    alloc: Global,
    units: &[Unit],
    longest: usize,
    k: u32,
    unit: &Unit,
) -> Result<List<Instance>, NoMemory>
    requires few { length (instances_below (expanded units.now longest) 1 (runs_of unit.now)) + 1 < 2 ^ 32 }
    requires short { longest < 2 ^ 32 }
    ensures { IfOk result (λ all. all ≡ record { unit = k; depth = 0; origin = None }
        ∷ instances_below (expanded units.now longest) 1 (runs_of unit.now)) }
{
    let mut all = List::new(alloc);
    all.push(Instance {
        unit: k,
        depth: 0,
        origin: None,
    })?;
    let runs = runs_of(alloc, unit)?;
    for run in runs.iter() {
        let alone = expanded(alloc, units, longest, run.unit)?;
        let n = all.len() as u32;
        append_called(alloc, n, run, alone, &mut all)?;
    }
    Ok(all)
}

/// The instances of a program. Fails only for want of memory.
pub fn instances_of(alloc: Global, program: &Program) -> Result<List<Instance>, NoMemory>
    requires { length (instances_of program.now.units program.now.entry) < 2 ^ 32 }
    ensures { IfOk result (λ all. all ≡ instances_of program.now.units program.now.entry) }
{
    expanded(
        alloc,
        &program.units,
        program.entry as usize + 1,
        program.entry,
    )
}

/// The program with the instances to which it expands. Fails only for want of memory.
pub fn setting_of<'a>(alloc: Global, program: &'a Program) -> Result<Setting<'a>, NoMemory>
    requires { length (instances_of program.now.units program.now.entry) < 2 ^ 32 }
    ensures { IfOk result (λ w. setting_in w ≡ setting_of program.now.structs program.now.units program.now.entry) }
{
    let instances = instances_of(alloc, program)?;
    let callees = Callees::of(alloc, &instances)?;
    Ok(Setting {
        program,
        instances,
        callees,
    })
}
