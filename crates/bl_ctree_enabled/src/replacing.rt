//! A listing in which one branch has changed.

ghost use Rattle.std.specs.Prelude.{◌≡◌, ◌<◌, OnErr, OnOk, Some, length, map, slice_get, slice_set};
ghost use Rattle.bl_ctree_store.specs.Seen.{location_of};
ghost use Rattle.bl_ctree_enabled.specs.Listing.{IsRight, enabled_view, flags_of};
ghost use Rattle.bl_ctree_enabled.specs.Spots.{spot_of};

use crate::asking::ask_all;
use crate::change::change_of;
use crate::counting::trues;
use crate::listing::{Found, Listing};
use crate::tables::note;
use bl_ctree_store::Home;
use bl_tree::{List, NoMemory};
use std::mem;

/// The homes of the branch with number k become these; tells those that it had.
fn put(all: &mut List<List<Home>>, k: usize, homes: List<Home>) -> List<Home>
    requires { k < length all.old }
    ensures now { all.new ≡ slice_set all.old k homes }
    ensures before { slice_get all.old k ≡ Some result }
{
    mem::replace(all.get_mut(k), homes)
}

impl<'a> Listing<'a> {
    /// The branch with number k may still write to other homes now, and has other points. The flags tell which of these read
    /// nothing that the other branches may still write. After want of memory the listing is as before.
    pub fn replace(&mut self, k: usize, found: Found<'a>, free: List<bool>) -> Result<(), NoMemory>
        requires within { k < length (enabled_view self.old).homes }
        requires points { length (enabled_view self.old).spots ≡ length (enabled_view self.old).homes }
        requires right { IsRight (enabled_view self.old) }
        requires flags { free ≡ flags_of (enabled_view self.old).homes k (map spot_of found.points) }
        ensures homes { OnOk result ((enabled_view self.new).homes ≡ slice_set (enabled_view self.old).homes k (map location_of found.entry.homes)) }
        ensures spots { OnOk result ((enabled_view self.new).spots ≡ slice_set (enabled_view self.old).spots k (map spot_of found.entry.points)) }
        ensures right { OnOk result (IsRight (enabled_view self.new)) }
        ensures memory { OnErr result (enabled_view self.new ≡ enabled_view self.old) }
    {
        note(&mut self.writers, &mut self.readers, k, &found)?;
        let Found { homes, points } = found;
        let before = put(&mut self.homes, k, homes);
        self.points.set(k, points);
        self.counts.set(k, trues(&free));
        self.free.set(k, free);
        let change = change_of(&before, &self.homes[k]);
        ask_all(
            &self.points,
            &self.homes,
            &self.writers,
            &self.readers,
            change.gone,
            &mut self.free,
            &mut self.counts,
        );
        ask_all(
            &self.points,
            &self.homes,
            &self.writers,
            &self.readers,
            change.come,
            &mut self.free,
            &mut self.counts,
        );
        Ok(())
    }
}
