//! The points of branches that read nothing that the trees beside them may still write.

ghost use Rattle.std.specs.Prelude.{◌≡◌, ◌++◌, map, filter, OnOk};
ghost use Rattle.std.specs.List.{list_any};
ghost use Rattle.bl_ctree_store.specs.Seen.{location_of};
ghost use Rattle.bl_ctree_enabled.specs.Spots.{spot_of};
ghost use Rattle.bl_ctree_run.specs.inner.Writers.{is_beside, is_free, write_of};

use crate::writers::{Write, Writers};
use bl_ctree_enabled::Point;
use bl_ctree_store::Home;
use bl_ctree_store::home::overlap;
use bl_tree::{List, NoMemory};

/// Whether another branch than the one with number k does one of the writes, and that overlaps the home.
fn is_taken(at: &Home, writes: &[Write], k: usize) -> bool
    ensures { result ≡ list_any (is_beside k (location_of at.now)) (map write_of writes.now) }
{
    for write in writes {
        if write.branch != k && overlap(at, &write.home) {
            return true;
        }
    }
    false
}

/// Whether the point reads nothing that the other branches than the one with number k may still write.
fn is_free(point: &Point, writers: &Writers, k: usize) -> bool
    ensures { result ≡ is_free writers.now k (spot_of point.now) }
{
    for at in point.reads.iter() {
        if is_taken(at, writers.near(at), k) {
            return false;
        }
    }
    true
}

/// Appends those of the points of the branch with number k that read nothing that the other branches may still write.
pub fn append_free<'a>(
    points: List<Point<'a>>,
    writers: &Writers,
    k: usize,
    into: &mut List<Point<'a>>,
) -> Result<(), NoMemory>
    ensures { OnOk result (map spot_of into.new ≡ map spot_of into.old ++ filter (is_free writers.now k) (map spot_of points.entry)) }
{
    for point in points.into_vec() {
        if is_free(&point, writers, k) {
            into.push(point)?;
        }
    }
    Ok(())
}
