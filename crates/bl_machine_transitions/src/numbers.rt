//! The numbers of the `run`s of an activity by their places.

ghost use Rattle.std.specs.Prelude.{◌≡◌, [], cond, map, IfOk, OnOk, Some};
ghost use Rattle.std.specs.BTreeMap.{is_at};
ghost use Rattle.std.specs.Map.{lookup};
ghost use Rattle.bl_tree.specs.Rules.{same_place};
ghost use Rattle.bl_machine_transitions.specs.Runs.{begins_run, kept_number, key_cmp, run_number};
ghost use Rattle.bl_machine_transitions.specs.Told.{rule_in, task_in};

use crate::transition::{Task, Transition};
use bl_tree::{NoMemory, Place};
use std::alloc::{AllocError, Global};
use std::collections::BTreeMap;
use std::marker::Model;

/// The number of each place at which a `run` stands: that of the first node at which one begins there.
#[derive(Drop)]
pub struct RunNumbers {
    /// By the start and end of the place.
    by_place: BTreeMap<(u32, u32), u32>,
}

impl Model for RunNumbers {
    ghost use Rattle.std.specs.Prelude.{ℕ, List};

    ghost Value = { List ((ℕ × ℕ) × ℕ) };

    ghost view = { λ numbers. numbers.by_place.entries };
}

impl RunNumbers {
    fn new(alloc: Global) -> RunNumbers
        ensures { result ≡ [] }
    {
        RunNumbers {
            by_place: BTreeMap::new(alloc),
        }
    }

    fn insert(&mut self, key: (u32, u32), number: u32) -> Result<(), NoMemory>
        ensures { OnOk result ((q : _) →
            lookup (is_at (key_cmp q)) self.new ≡ cond (is_at (key_cmp key) q) (Some number) (lookup (is_at (key_cmp q)) self.old)) }
    {
        if let Err(e) = self.by_place.insert(key, number) {
            return Err(AllocError::from(e).into());
        }
        Ok(())
    }

    /// From now on the place has the number.
    fn put(&mut self, at: Place, number: u32) -> Result<(), NoMemory>
        ensures { OnOk result ((q : _) → kept_number self.new q ≡ cond (same_place at q) number (kept_number self.old q)) }
    {
        self.insert((at.start, at.end), number)?;
        Ok(())
    }

    /// Adds the node with the task and the number, which stands before those that are there.
    fn add(&mut self, task: &Task, number: u32) -> Result<(), NoMemory>
        ensures { OnOk result ((q : _) → kept_number self.new q ≡ cond (begins_run q (task_in task.now)) number (kept_number self.old q)) }
    {
        match task {
            Task::Nothing(_) | Task::Act(_) | Task::Test(_) | Task::Resume(_) => Ok(()),
            Task::Enter(run) => self.put(run.place, number),
        }
    }

    /// Those of an activity, by its rules in source order. Fails only if memory runs out.
    pub fn of(alloc: Global, rules: &[Transition]) -> Result<RunNumbers, NoMemory>
        ensures { IfOk result (λ numbers. (q : _) → kept_number numbers q ≡ run_number (map rule_in rules.now) q) }
    {
        let mut numbers = RunNumbers::new(alloc);
        for k in (0..rules.len()).rev() {
            numbers.add(&rules[k].task, rules[k].number)?;
        }
        Ok(numbers)
    }

    /// The number of the `run`s at the place.
    pub fn find(&self, at: Place) -> u32
        ensures { result ≡ kept_number self.now at }
    {
        match self.by_place.get(&(at.start, at.end)) {
            Some(number) => *number,
            None => 0,
        }
    }
}
