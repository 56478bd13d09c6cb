//! The points of the branches of a `cobegin`, kept from one step to the next.

ghost use Rattle.std.specs.Prelude.{map};
ghost use Rattle.bl_ctree_store.specs.Seen.{location_of};
ghost use Rattle.bl_ctree_enabled.specs.Spots.{spot_of};
ghost use Rattle.bl_ctree_enabled.specs.inner.Tables.{AllNoted, reads_in};

use crate::beside::flags;
use crate::counting::{nth, trues};
use crate::point::Point;
use crate::table::Table;
use crate::tables::{readers_of, writers_of};
use bl_ctree_counts::Counts;
use bl_ctree_store::Home;
use bl_tree::{List, NoMemory};
use std::alloc::Global;

/// What is kept of the branches of a `cobegin`, in order.
#[derive(Drop)]
pub struct Listing<'a> {
    /// What each may still write.
    pub homes: List<List<Home>>,
    /// The points of each by itself.
    pub points: List<List<Point<'a>>>,
    /// Which of these read nothing that another branch may still write.
    pub free: List<List<bool>>,
    /// How many these are.
    pub counts: Counts,
    /// By variable, all branches that may still write to it, and maybe some that could.
    pub(crate) writers: Table,
    /// By variable, all branches that have a point that reads it, and maybe some that had one.
    pub(crate) readers: Table,
    ghost writers_noted: { AllNoted writers (map (map location_of) homes) },
    ghost readers_noted: { AllNoted readers (map reads_in (map (map spot_of) points)) },
}

/// What is found of one branch.
#[derive(Drop)]
pub struct Found<'a> {
    pub homes: List<Home>,
    pub points: List<Point<'a>>,
}

impl<'a> Listing<'a> {
    ghost use Rattle.std.specs.Prelude.{◌≡◌, IfOk, length, option_map, slice_get};
    ghost use Rattle.bl_ctree_enabled.specs.Listing.{IsRight, enabled, enabled_view, flagged, flags_of, kept_of, list_at};

    /// Of branches that may still write to these homes, and have these points each by itself. Fails only for want of memory.
    pub fn of(
        alloc: Global,
        homes: List<List<Home>>,
        points: List<List<Point<'a>>>,
    ) -> Result<Listing<'a>, NoMemory>
        ensures { IfOk result (λ made. enabled_view made ≡ kept_of (map (map location_of) homes) (map (map spot_of) points.entry)) }
    {
        let writers = writers_of(alloc, &homes)?;
        let readers = readers_of(alloc, &points)?;
        let mut free = List::new(alloc);
        let mut counts = List::new(alloc);
        for k in 0..points.len() {
            let flags = flags(alloc, &points[k], &homes, &writers, k)?;
            counts.push(trues(&flags))?;
            free.push(flags)?;
        }
        let counts = Counts::of(alloc, counts)?;
        Ok(Listing {
            homes,
            points,
            free,
            counts,
            writers,
            readers,
        })
    }

    /// Which of these points of the branch with number k read nothing that the other branches may still write. Fails only for want of memory.
    pub fn flags(&self, alloc: Global, points: &[Point], k: usize) -> Result<List<bool>, NoMemory>
        ensures { IfOk result (λ made. made ≡ flags_of (enabled_view self.now).homes k (map spot_of points.now)) }
    {
        flags(alloc, points, &self.homes, &self.writers, k)
    }

    /// How many points may act. Fails only where the number is too large for memory.
    pub fn count(&self) -> Result<usize, NoMemory>
        requires { IsRight (enabled_view self.now) }
        ensures { IfOk result (λ n. n ≡ length (enabled (enabled_view self.now))) }
    {
        self.counts.total()
    }

    fn nth_of(&self, k: usize, n: usize) -> Option<&Point<'a>>
        ensures { option_map (λ point. spot_of point.now) result
            ≡ slice_get (flagged (list_at (enabled_view self.now).free k) (list_at (enabled_view self.now).spots k)) n }
    {
        if k >= self.points.len() {
            return None;
        }
        if k >= self.free.len() {
            return None;
        }
        nth(&self.points[k], &self.free[k], n)
    }

    /// The point with number n of those that may act, one branch after another.
    pub fn choose(&self, n: usize) -> Option<&Point<'a>>
        requires { IsRight (enabled_view self.now) }
        ensures { option_map (λ point. spot_of point.now) result ≡ slice_get (enabled (enabled_view self.now)) n }
    {
        match self.counts.find(n) {
            None => None,
            Some(found) => self.nth_of(found.at, found.rest),
        }
    }
}
