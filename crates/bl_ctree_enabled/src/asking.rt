//! Points that are asked again, where one branch has changed what it may still write.

ghost use Rattle.std.specs.Prelude.{◌≡◌, ◌∷◌, [], map, slice_set};
ghost use Rattle.bl_ctree_store.specs.Seen.{location_of};
ghost use Rattle.bl_ctree_enabled.specs.Listing.{list_at, trues};
ghost use Rattle.bl_ctree_enabled.specs.Spots.{spot_of};
ghost use Rattle.bl_ctree_enabled.specs.inner.Asked.{asked_flags, asked_from};
ghost use Rattle.bl_ctree_enabled.specs.inner.Tables.{AllNoted, reads_in};

use crate::beside::{is_free, touches};
use crate::counting::trues;
use crate::point::Point;
use crate::table::Table;
use bl_ctree_counts::Counts;
use bl_ctree_store::Home;
use bl_tree::List;

/// Asks again which points of the branch with number j may act, of those that read what overlaps the home.
fn ask_points(
    points: &[Point],
    all: &[List<Home>],
    writers: &Table,
    j: usize,
    changed: &Home,
    free: &mut List<bool>,
)
    requires { AllNoted writers.now (map (map location_of) all.now) }
    ensures { free.new ≡ asked_flags (map (map location_of) all.now) j (location_of changed.now ∷ []) (map spot_of points.now) free.old }
{
    for m in 0..free.len() {
        if m < points.len() && touches(changed, &points[m].reads) {
            free.set(m, is_free(&points[m], all, writers, j));
        }
    }
}

/// The same of the branch among all.
fn ask_branch(
    points: &[List<Point>],
    all: &[List<Home>],
    writers: &Table,
    j: usize,
    changed: &Home,
    free: &mut List<List<bool>>,
    counts: &mut Counts,
)
    requires noted { AllNoted writers.now (map (map location_of) all.now) }
    requires counted { counts.old ≡ map trues free.old }
    ensures free { free.new ≡ slice_set free.old j (asked_flags (map (map location_of) all.now) j (location_of changed.now ∷ [])
        (list_at (map (map spot_of) points.now) j) (list_at free.old j)) }
    ensures counts { counts.new ≡ map trues free.new }
{
    if j < points.len() && j < free.len() {
        ask_points(&points[j], all, writers, j, changed, free.get_mut(j));
        counts.set(j, trues(&free[j]));
    }
}

/// The same of each branch of which a point may read what overlaps the home.
fn ask_readers(
    points: &[List<Point>],
    all: &[List<Home>],
    writers: &Table,
    readers: &Table,
    changed: &Home,
    free: &mut List<List<bool>>,
    counts: &mut Counts,
)
    requires writers { AllNoted writers.now (map (map location_of) all.now) }
    requires readers { AllNoted readers.now (map reads_in (map (map spot_of) points.now)) }
    requires counted { counts.old ≡ map trues free.old }
    ensures free { free.new ≡ asked_from (map (map location_of) all.now) 0 (location_of changed.now ∷ []) (map (map spot_of) points.now) free.old }
    ensures counts { counts.new ≡ map trues free.new }
{
    for key in readers.near(changed, points.len()) {
        ask_branch(points, all, writers, key.2, changed, free, counts);
    }
}

/// The same of all these homes.
pub fn ask_all(
    points: &[List<Point>],
    all: &[List<Home>],
    writers: &Table,
    readers: &Table,
    changed: &[Home],
    free: &mut List<List<bool>>,
    counts: &mut Counts,
)
    requires writers { AllNoted writers.now (map (map location_of) all.now) }
    requires readers { AllNoted readers.now (map reads_in (map (map spot_of) points.now)) }
    requires counted { counts.old ≡ map trues free.old }
    ensures free { free.new ≡ asked_from (map (map location_of) all.now) 0 (map location_of changed.now) (map (map spot_of) points.now) free.old }
    ensures counts { counts.new ≡ map trues free.new }
{
    for home in changed {
        ask_readers(points, all, writers, readers, home, free, counts);
    }
}
