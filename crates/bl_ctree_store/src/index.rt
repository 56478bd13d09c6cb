//! The instances of a program by the `run` statements that begin them.

ghost use Rattle.std.specs.Prelude.{◌≡◌, ◌<◌, ◌^◌, [], cond, length, IfOk, OnOk, Some, None};
ghost use Rattle.std.specs.BTreeMap.{is_at};
ghost use Rattle.std.specs.Map.{lookup};
ghost use Rattle.std.specs.Option.{option_or};
ghost use Rattle.bl_ctree.specs.Instances.{begins_at};
ghost use Rattle.bl_ctree_store.specs.Callees.{IndexesCallees, kept_callee, key_cmp};

use bl_ctree::instance::{Instance, Origin};
use bl_tree::{NoMemory, Place};
use std::alloc::{AllocError, Global};
use std::collections::BTreeMap;
use std::marker::Model;

/// The instances of a program by their callers and the places of the `run` statements that begin them.
#[derive(Drop)]
pub struct Callees {
    /// By the caller, and the start and end of the place.
    by_place: BTreeMap<(u32, (u32, u32)), u32>,
}

impl Model for Callees {
    ghost use Rattle.std.specs.Prelude.{ℕ, List};

    ghost Value = { List ((ℕ × (ℕ × ℕ)) × ℕ) };

    ghost view = { λ callees. callees.by_place.entries };
}

impl Callees {
    fn new(alloc: Global) -> Callees
        ensures { result ≡ [] }
    {
        Callees {
            by_place: BTreeMap::new(alloc),
        }
    }

    fn insert(&mut self, key: (u32, (u32, u32)), k: u32) -> Result<(), NoMemory>
        ensures { OnOk result ((q : _) →
            lookup (is_at (key_cmp q)) self.new ≡ cond (is_at (key_cmp key) q) (Some k) (lookup (is_at (key_cmp q)) self.old)) }
    {
        if let Err(e) = self.by_place.insert(key, k) {
            return Err(AllocError::from(e).into());
        }
        Ok(())
    }

    /// Adds an instance that comes behind those that are there.
    fn add(&mut self, origin: &Option<Origin>, k: u32) -> Result<(), NoMemory>
        ensures { OnOk result ((caller : _) → (place : _) → kept_callee self.new caller place
            ≡ option_or (kept_callee self.old caller place) (cond (begins_at caller place origin.now) (Some k) None)) }
    {
        let Some(origin) = origin else {
            return Ok(());
        };
        let key = (origin.caller, (origin.place.start, origin.place.end));
        if self.by_place.contains_key(&key) {
            return Ok(());
        }
        self.insert(key, k)?;
        Ok(())
    }

    /// Those of all instances. Fails only for want of memory.
    pub fn of(alloc: Global, instances: &[Instance]) -> Result<Callees, NoMemory>
        requires { length instances.now < 2 ^ 32 }
        ensures { IfOk result (λ callees. IndexesCallees callees instances.now) }
    {
        let mut callees = Callees::new(alloc);
        for k in 0..instances.len() {
            callees.add(&instances[k].origin, k as u32)?;
        }
        Ok(callees)
    }

    /// The instance that the `run` statement at the place begins in its caller's instance.
    pub fn find(&self, caller: u32, place: Place) -> Option<u32>
        ensures { result ≡ kept_callee self.now caller place }
    {
        self.by_place
            .get(&(caller, (place.start, place.end)))
            .copied()
    }
}
