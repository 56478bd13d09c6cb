//! The activities that a unit runs.

ghost use Rattle.std.specs.Prelude.{◌≡◌, ◌∷◌, [], ◌++◌, ◌||◌, cond, map, not, IfOk, OnOk};
ghost use Rattle.std.specs.List.{list_any};
ghost use Rattle.bl_tree.specs.Reduce.{joined};
ghost use Rattle.bl_tree.specs.Rules.{same_place};
ghost use Rattle.bl_limits_measures.specs.Runs.{activities_by_place, activities_run, one_a_place, runs_in, runs_in_arm, runs_in_branch, units_of};
ghost use Rattle.bl_limits_measures.specs.inner.Seen.{SeesRuns, has_place, starts_at};

use bl_tree::tree::{Arm, Branch, Stmt, StmtKind, Unit};
use bl_tree::{List, NoMemory, Place};
use std::alloc::{AllocError, Global};
use std::collections::BTreeSet;

/// A `run` statement.
#[derive(Clone, Copy, PartialEq, Eq, Debug)]
pub struct PlacedRun {
    /// Where it stands.
    pub place: Place,
    /// The position of the activity that it runs.
    pub unit: u32,
}

/// Appends the `run` statements in the statement, in source order.
#[cycle(running)]
fn in_statement(s: &Stmt, into: &mut List<PlacedRun>) -> Result<(), NoMemory>
    ensures { OnOk result (into.new ≡ into.old ++ runs_in s.now) }
{
    match &s.what {
        StmtKind::Declare(_, _)
        | StmtKind::Assign(_, _)
        | StmtKind::Call(_, _, _)
        | StmtKind::Await(_)
        | StmtKind::Return(_) => Ok(()),
        StmtKind::Run(_, activity, _, _) => {
            into.push(PlacedRun {
                place: s.place,
                unit: *activity,
            })?;
            Ok(())
        }
        StmtKind::If(arms, other) => {
            in_arms(arms, into)?;
            in_block(other, into)
        }
        StmtKind::Cobegin(branches) => in_branches(branches, into),
        StmtKind::When(_, _, body)
        | StmtKind::Repeat(body)
        | StmtKind::Until(body, _)
        | StmtKind::While(_, body) => in_block(body, into),
    }
}

#[cycle(running)]
fn in_block(body: &[Stmt], into: &mut List<PlacedRun>) -> Result<(), NoMemory>
    ensures { OnOk result (into.new ≡ into.old ++ joined (map runs_in body.now)) }
{
    for s in body {
        in_statement(s, into)?;
    }
    Ok(())
}

#[cycle(running)]
fn in_arms(arms: &[Arm], into: &mut List<PlacedRun>) -> Result<(), NoMemory>
    ensures { OnOk result (into.new ≡ into.old ++ joined (map runs_in_arm arms.now)) }
{
    for arm in arms {
        in_block(&arm.body, into)?;
    }
    Ok(())
}

#[cycle(running)]
fn in_branches(branches: &[Branch], into: &mut List<PlacedRun>) -> Result<(), NoMemory>
    ensures { OnOk result (into.new ≡ into.old ++ joined (map runs_in_branch branches.now)) }
{
    for branch in branches {
        in_block(&branch.body, into)?;
    }
    Ok(())
}

/// The `run` statements of the unit, in source order.
fn all_in(alloc: Global, unit: &Unit) -> Result<List<PlacedRun>, NoMemory>
    ensures { IfOk result (λ runs. runs ≡ joined (map runs_in unit.now.body)) }
{
    let mut runs = List::new(alloc);
    in_block(&unit.body, &mut runs)?;
    Ok(runs)
}

/// Adds the place, and tells whether it is new.
fn see(seen: &mut BTreeSet<(u32, u32)>, place: Place) -> Result<bool, NoMemory>
    ensures fresh { IfOk result (λ fresh. fresh ≡ not (has_place seen.old place)) }
    ensures seen { OnOk result ((q : _) → has_place seen.new q ≡ (same_place place q || has_place seen.old q)) }
{
    match seen.insert((place.start, place.end)) {
        Ok(fresh) => Ok(fresh),
        Err(e) => Err(AllocError::from(e).into()),
    }
}

/// Appends the `run` statement where none of its place is there.
fn add(
    run: PlacedRun,
    seen: &mut BTreeSet<(u32, u32)>,
    into: &mut List<PlacedRun>,
) -> Result<(), NoMemory>
    requires { SeesRuns seen.old into.old }
    ensures kept { OnOk result (into.new ≡ cond (list_any (starts_at run.place) into.old) into.old (into.old ++ run ∷ [])) }
    ensures seen { OnOk result (SeesRuns seen.new into.new) }
{
    let fresh = see(seen, run.place)?;
    if !fresh {
        return Ok(());
    }
    into.push(run)?;
    Ok(())
}

/// The first of each place.
fn one_a_place(alloc: Global, runs: List<PlacedRun>) -> Result<List<PlacedRun>, NoMemory>
    ensures { IfOk result (λ kept. kept ≡ one_a_place runs) }
{
    let mut kept = List::new(alloc);
    let mut seen = BTreeSet::new(alloc);
    for run in runs.into_vec() {
        add(run, &mut seen, &mut kept)?;
    }
    Ok(kept)
}

/// The activities that `run` statements run.
fn units_of(alloc: Global, runs: &[PlacedRun]) -> Result<List<u32>, NoMemory>
    ensures { IfOk result (λ units. units ≡ units_of runs.now) }
{
    let mut units = List::new(alloc);
    for run in runs {
        units.push(run.unit)?;
    }
    Ok(units)
}

/// The positions of the activities of the unit's `run` statements, at any depth, in source order, one for each statement.
/// Fails only for want of memory.
pub fn activities_run(alloc: Global, unit: &Unit) -> Result<List<u32>, NoMemory>
    ensures { IfOk result (λ runs. runs ≡ activities_run unit.now) }
{
    let runs = all_in(alloc, unit)?;
    units_of(alloc, &runs)
}

/// The positions of the activities of the unit's `run` statements, at any depth, in source order, where those of one place
/// count once. Fails only for want of memory.
pub fn activities_by_place(alloc: Global, unit: &Unit) -> Result<List<u32>, NoMemory>
    ensures { IfOk result (λ runs. runs ≡ activities_by_place unit.now) }
{
    let runs = one_a_place(alloc, all_in(alloc, unit)?)?;
    units_of(alloc, &runs)
}
