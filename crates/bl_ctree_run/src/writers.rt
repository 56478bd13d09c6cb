//! What the branches of a `cobegin` may still write, by instance and variable.

ghost use Rattle.std.specs.Prelude.{◌≡◌, ◌++◌, ◌∷◌, ℕ, [], None, Some, cond, map, IfOk, OnOk, unwrap_or};
ghost use Rattle.std.specs.BTreeMap.{is_at};
ghost use Rattle.std.specs.Map.{lookup};
ghost use Rattle.bl_ctree.specs.Nodes.{seen_of};
ghost use Rattle.bl_ctree.specs.Store.{Location};
ghost use Rattle.bl_ctree_store.specs.Seen.{location_of, setting_in};
ghost use Rattle.bl_ctree_enabled.specs.Spots.{homes_seen};
ghost use Rattle.bl_ctree_run.specs.inner.Writers.{all_writes, key_cmp, writes_kept, of_variable, write_of, writes_by};

use bl_ctree::node::Branch;
use bl_ctree_pending::pending;
use bl_ctree_store::home::append_homes;
use bl_ctree_store::{Home, Setting};
use bl_tree::{List, NoMemory};
use std::alloc::{AllocError, Global};
use std::collections::BTreeMap;
use std::marker::Model;

/// Something that a branch may still write.
#[derive(Drop)]
pub struct Write {
    /// The number of the branch.
    pub branch: usize,
    pub home: Home,
}

/// What some branches may still write.
#[derive(Drop)]
pub struct Writers {
    /// By the instance and the variable.
    by_variable: BTreeMap<(u32, usize), List<Write>>,
}

impl Model for Writers {
    ghost use Rattle.std.specs.Prelude.{ℕ, List};
    ghost use Rattle.bl_ctree_run.specs.declared.writers.Write.{Write};

    ghost Value = { List ((ℕ × ℕ) × List Write) };

    ghost view = { λ writers. writers.by_variable.entries };
}

impl Writers {
    fn new(alloc: Global) -> Writers
        ensures { result ≡ [] }
    {
        Writers {
            by_variable: BTreeMap::new(alloc),
        }
    }

    fn take(&mut self, alloc: Global, key: (u32, usize)) -> List<Write>
        ensures taken { result ≡ unwrap_or (lookup (is_at (key_cmp key)) self.old) [] }
        ensures others { (q : _) → lookup (is_at (key_cmp q)) self.new ≡ cond (is_at (key_cmp key) q) None (lookup (is_at (key_cmp q)) self.old) }
    {
        match self.by_variable.remove(&key) {
            Some(writes) => writes,
            None => List::new(alloc),
        }
    }

    fn insert(&mut self, key: (u32, usize), writes: List<Write>) -> Result<(), NoMemory>
        ensures { OnOk result ((q : _) → lookup (is_at (key_cmp q)) self.new
            ≡ cond (is_at (key_cmp key) q) (Some writes) (lookup (is_at (key_cmp q)) self.old)) }
    {
        match self.by_variable.insert(key, writes) {
            Ok(_) => Ok(()),
            Err(e) => Err(AllocError::from(e).into()),
        }
    }

    /// The branch may write this too. Fails only for want of memory, as all that follows.
    fn note(&mut self, alloc: Global, branch: usize, home: Home) -> Result<(), NoMemory>
        ensures { OnOk result ((at : Location) → writes_kept self.new at ≡ writes_kept self.old at
            ++ of_variable at (writes_by branch (location_of home ∷ []))) }
    {
        let key = (home.instance, home.root);
        let mut writes = self.take(alloc, key);
        writes.push(Write { branch, home })?;
        self.insert(key, writes)
    }

    fn note_all(&mut self, alloc: Global, branch: usize, homes: List<Home>) -> Result<(), NoMemory>
        ensures { OnOk result ((at : Location) → writes_kept self.new at ≡ writes_kept self.old at
            ++ of_variable at (writes_by branch (map location_of homes))) }
    {
        for home in homes.into_vec() {
            self.note(alloc, branch, home)?;
        }
        Ok(())
    }

    fn note_branch(
        &mut self,
        alloc: Global,
        w: &Setting,
        i: u32,
        k: usize,
        branch: &Branch,
    ) -> Result<(), NoMemory>
        ensures { OnOk result ((at : Location) → writes_kept self.new at
            ≡ writes_kept self.old at ++ of_variable at (writes_by k (homes_seen (setting_in w.now) i (seen_of branch.now)))) }
    {
        let mut paths = List::new(alloc);
        pending(alloc, &branch.tree, &mut paths)?;
        let mut homes = List::new(alloc);
        append_homes(alloc, w, i, &paths, &mut homes)?;
        self.note_all(alloc, k, homes)
    }

    /// What each of the branches may still write.
    pub fn of(alloc: Global, w: &Setting, i: u32, branches: &[Branch]) -> Result<Writers, NoMemory>
        ensures { IfOk result (λ writers. (at : Location) → writes_kept writers at
            ≡ of_variable at (all_writes (map (homes_seen (setting_in w.now) i) (map seen_of branches.now)))) }
    {
        let mut writers = Writers::new(alloc);
        for k in 0..branches.len() {
            writers.note_branch(alloc, w, i, k, &branches[k])?;
        }
        Ok(writers)
    }

    /// What may be written of the variable in which the home lies.
    pub fn near(&self, at: &Home) -> &[Write]
        ensures { map write_of result.now ≡ writes_kept self.now (location_of at.now) }
    {
        match self.by_variable.get(&(at.instance, at.root)) {
            Some(writes) => writes.as_slice(),
            None => &[],
        }
    }
}
