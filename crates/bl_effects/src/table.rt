//! Effects by place.

ghost use Rattle.std.specs.Prelude.{◌≡◌, cond, [], Some, IfOk, OnOk, option_map};
ghost use Rattle.bl_effects.specs.Entries.{effect_at};
ghost use Rattle.bl_tree.specs.Rules.{same_place};
ghost use Rattle.bl_effects.specs.Table.{TableHasPlace, TableTellsEffects, found, instant_at, reads_at, writes_at};

use crate::gather::{Paths, block};
use bl_tree::{List, NoMemory, Place, Program, Static};
use std::alloc::{AllocError, Global};
use std::collections::BTreeMap;
use std::marker::Model;

/// What is known of one statement.
#[derive(Drop)]
pub struct Sets {
    /// Ascending, each once.
    pub reads: List<Static>,
    /// Ascending, each once.
    pub writes: List<Static>,
    /// Whether it may end in the tick in which it begins.
    pub instant: bool,
}

/// What the statements of a program read and write and which of them may end in the tick in which they begin, by the
/// places of the statements.
#[derive(Drop)]
pub struct Effects {
    /// By the starts and ends of places.
    by_place: BTreeMap<(u32, u32), Sets>,
}

impl Model for Effects {
    ghost use Rattle.std.specs.Prelude.{List, map};
    ghost use Rattle.bl_effects.specs.Entries.{entry};
    ghost use Rattle.bl_tree.specs.Within.{Effect};

    ghost Value = { List Effect };

    ghost view = { λ effects. map entry effects.by_place.entries };
}

impl Effects {
    /// The effects of all statements of the program, at any depth.
    pub fn of(alloc: Global, program: &Program) -> Result<Effects, NoMemory>
        ensures { IfOk result (λ effects. TableTellsEffects effects program.now.units) }
    {
        let mut effects = Effects::new(alloc);
        for unit in program.units.iter() {
            let mut paths = Paths {
                reads: List::new(alloc),
                writes: List::new(alloc),
            };
            block(alloc, &unit.body, &mut effects, &mut paths)?;
        }
        Ok(effects)
    }

    pub(crate) fn new(alloc: Global) -> Effects
        ensures { result ≡ [] }
    {
        Effects {
            by_place: BTreeMap::new(alloc),
        }
    }

    /// What was there of the place is dropped.
    pub(crate) fn insert(&mut self, at: Place, sets: Sets) -> Result<(), NoMemory>
        ensures { OnOk result ((q : _) → found self.new q ≡ cond (same_place at q) (Some (effect_at at sets)) (found self.old q)) }
    {
        match self.by_place.insert((at.start, at.end), sets) {
            Ok(_) => Ok(()),
            Err(e) => Err(AllocError::from(e).into()),
        }
    }

    /// What is known of the statement at the place, where there is one.
    pub(crate) fn find(&self, at: Place) -> Option<&Sets>
        ensures { option_map (λ sets. effect_at at sets.now) result ≡ found self.now at }
    {
        self.by_place.get(&(at.start, at.end))
    }

    fn sets(&self, at: Place) -> &Sets
        requires { TableHasPlace self.now at }
        ensures { found self.now at ≡ Some (effect_at at result.now) }
    {
        match self.find(at) {
            Some(sets) => sets,
            None => unreachable!(),
        }
    }

    /// The static paths that the statement at the place reads.
    pub fn reads(&self, at: Place) -> &List<Static>
        requires { TableHasPlace self.now at }
        ensures { result.now ≡ reads_at self.now at }
    {
        &self.sets(at).reads
    }

    /// The static paths that the statement at the place writes.
    pub fn writes(&self, at: Place) -> &List<Static>
        requires { TableHasPlace self.now at }
        ensures { result.now ≡ writes_at self.now at }
    {
        &self.sets(at).writes
    }

    /// Whether the statement at the place may end in the tick in which it begins.
    pub fn instant(&self, at: Place) -> bool
        requires { TableHasPlace self.now at }
        ensures { result ≡ instant_at self.now at }
    {
        self.sets(at).instant
    }
}
