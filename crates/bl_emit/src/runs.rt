//! The `run`s of an activity, one for each place.

ghost use Rattle.std.specs.Prelude.{◌≡◌, ◌∷◌, [], ◌++◌, ◌||◌, cond, not, IfOk, OnOk, map};
ghost use Rattle.std.specs.List.{list_any};
ghost use Rattle.bl_tree.specs.Rules.{same_place};
ghost use Rattle.bl_machine_transitions.specs.Told.{rule_in, task_in};
ghost use Rattle.bl_emit_spec.specs.Activities.{one_a_place};
ghost use Rattle.bl_emit_tables.specs.Told.{all_runs_told, run_told, runs_told};
ghost use Rattle.bl_emit.specs.Kept.{run_in};
ghost use Rattle.bl_emit.specs.inner.Seen.{SeesRuns, has_run_place, run_stands_at};

use bl_machine_transitions::{Task, Transition};
use bl_tree::{List, NoMemory, Place};
use std::alloc::{AllocError, Global};
use std::collections::BTreeSet;

/// A `run` of an activity.
#[derive(Clone, Copy, PartialEq, Eq, Debug)]
pub struct RunAt {
    /// Where it stands.
    pub place: Place,
    /// The number of the node at which it begins.
    pub number: u32,
    /// The position of the activity.
    pub unit: u32,
}

/// Appends the `run` that begins at a node with the number and the task.
fn add_run(number: u32, task: &Task, runs: &mut List<RunAt>) -> Result<(), NoMemory>
    ensures { OnOk result (map run_in runs.new ≡ map run_in runs.old ++ run_told number (task_in task.now)) }
{
    match task {
        Task::Nothing(_) | Task::Act(_) | Task::Test(_) | Task::Resume(_) => Ok(()),
        Task::Enter(run) => {
            runs.push(RunAt {
                place: run.place,
                number,
                unit: run.unit,
            })?;
            Ok(())
        }
    }
}

/// The `run`s of an activity, in source order.
fn all_of(alloc: Global, rules: &[Transition]) -> Result<List<RunAt>, NoMemory>
    ensures { IfOk result (λ runs. map run_in runs ≡ all_runs_told (map rule_in rules.now)) }
{
    let mut runs = List::new(alloc);
    for rule in rules {
        add_run(rule.number, &rule.task, &mut runs)?;
    }
    Ok(runs)
}

/// Adds the place, and tells whether it is new.
fn see(seen: &mut BTreeSet<(u32, u32)>, place: Place) -> Result<bool, NoMemory>
    ensures fresh { IfOk result (λ fresh. fresh ≡ not (has_run_place seen.old place)) }
    ensures seen { OnOk result ((q : _) → has_run_place seen.new q ≡ (same_place place q || has_run_place seen.old q)) }
{
    match seen.insert((place.start, place.end)) {
        Ok(fresh) => Ok(fresh),
        Err(e) => Err(AllocError::from(e).into()),
    }
}

/// Appends the `run` where none of its place is there.
fn add(run: RunAt, seen: &mut BTreeSet<(u32, u32)>, into: &mut List<RunAt>) -> Result<(), NoMemory>
    requires { SeesRuns seen.old into.old }
    ensures kept { OnOk result (into.new ≡ cond (list_any (run_stands_at run.place) into.old) into.old (into.old ++ run ∷ [])) }
    ensures seen { OnOk result (SeesRuns seen.new into.new) }
{
    let fresh = see(seen, run.place)?;
    if !fresh {
        return Ok(());
    }
    into.push(run)?;
    Ok(())
}

/// The first of each place.
fn one_a_place(alloc: Global, runs: List<RunAt>) -> Result<List<RunAt>, NoMemory>
    ensures { IfOk result (λ kept. map run_in kept ≡ one_a_place (map run_in runs)) }
{
    let mut kept = List::new(alloc);
    let mut seen = BTreeSet::new(alloc);
    for run in runs.into_vec() {
        add(run, &mut seen, &mut kept)?;
    }
    Ok(kept)
}

/// The first `run` of each place of an activity, in source order.
pub fn runs_of(alloc: Global, rules: &[Transition]) -> Result<List<RunAt>, NoMemory>
    ensures { IfOk result (λ runs. map run_in runs ≡ runs_told (map rule_in rules.now)) }
{
    let runs = all_of(alloc, rules)?;
    one_a_place(alloc, runs)
}
