//! Which branches have to do with which variables.

ghost use Rattle.std.specs.Prelude.{◌≡◌, true, map, OnOk};
ghost use Rattle.bl_ctree_store.specs.Seen.{location_of};
ghost use Rattle.bl_ctree_enabled.specs.Spots.{spot_of};
ghost use Rattle.bl_ctree_enabled.specs.inner.Tables.{Grows, Noted, is_noted, near, reads_in};

use crate::point::Point;
use bl_ctree_store::Home;
use bl_tree::NoMemory;
use std::alloc::{AllocError, Global};
use std::collections::BTreeSet;
use std::collections::btree_set::Range;

/// Branches by variable. A branch that is noted may have nothing to do with the variable any more, so who asks the table
/// has to look at the branch; one that isn't noted has nothing to do with the variable, where all were noted.
#[derive(Drop)]
pub struct Table {
    /// The instance, the variable of the instance, and the number of the branch.
    pub by_variable: BTreeSet<(u32, usize, usize)>,
}

impl Table {
    pub fn new(alloc: Global) -> Table {
        Table {
            by_variable: BTreeSet::new(alloc),
        }
    }

    /// Notes the branch with number k at the variable in which the home lies. Fails only for want of memory, as what follows.
    pub fn note(&mut self, k: usize, at: &Home) -> Result<(), NoMemory>
        ensures noted { OnOk result (is_noted self.new k (location_of at.now) ≡ true) }
        ensures grows { Grows self.old self.new }
    {
        match self.by_variable.insert((at.instance, at.root, k)) {
            Ok(_) => Ok(()),
            Err(e) => Err(AllocError::from(e).into()),
        }
    }

    /// The same at all of these homes.
    pub fn note_all(&mut self, k: usize, homes: &[Home]) -> Result<(), NoMemory>
        ensures noted { OnOk result (Noted self.new k (map location_of homes.now)) }
        ensures grows { Grows self.old self.new }
    {
        for at in homes {
            self.note(k, at)?;
        }
        Ok(())
    }

    /// The same at all that the points read.
    pub fn note_reads(&mut self, k: usize, points: &[Point]) -> Result<(), NoMemory>
        ensures noted { OnOk result (Noted self.new k (reads_in (map spot_of points.now))) }
        ensures grows { Grows self.old self.new }
    {
        for point in points {
            self.note_all(k, &point.reads)?;
        }
        Ok(())
    }

    /// What is noted of the first of so many branches at the variable in which the home lies.
    pub fn near(&self, at: &Home, many: usize) -> Range<'_, (u32, usize, usize)>
        ensures { result ≡ near self.now (location_of at.now) many }
    {
        self.by_variable
            .range((at.instance, at.root, 0)..(at.instance, at.root, many))
    }
}
