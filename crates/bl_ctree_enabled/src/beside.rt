//! Whether points read what other branches may still write, by the homes of each branch and the table of those that write.

ghost use Rattle.std.specs.Prelude.{◌≡◌, ◌∷◌, IfOk, [], length, map};
ghost use Rattle.std.specs.List.{list_any};
ghost use Rattle.bl_ctree.specs.Store.{overlap};
ghost use Rattle.bl_ctree_store.specs.Seen.{location_of};
ghost use Rattle.bl_ctree_enabled.specs.Listing.{flags_of, list_at, touches};
ghost use Rattle.bl_ctree_enabled.specs.Spots.{is_free_of, spot_of};
ghost use Rattle.bl_ctree_enabled.specs.inner.Asked.{is_hit, is_taken};
ghost use Rattle.bl_ctree_enabled.specs.inner.Tables.{AllNoted, near};

use crate::point::Point;
use crate::table::Table;
use bl_ctree_store::Home;
use bl_ctree_store::home::overlap;
use bl_tree::{List, NoMemory};
use std::alloc::Global;

fn meets(homes: &[Home], at: &Home) -> bool
    ensures { result ≡ list_any (overlap (location_of at.now)) (map location_of homes.now) }
{
    for home in homes {
        if overlap(at, home) {
            return true;
        }
    }
    false
}

/// Whether the home overlaps one of those that are read.
pub fn touches(home: &Home, reads: &[Home]) -> bool
    ensures { result ≡ touches (location_of home.now ∷ []) (map location_of reads.now) }
{
    for at in reads {
        if overlap(at, home) {
            return true;
        }
    }
    false
}

fn meets_at(all: &[List<Home>], j: usize, at: &Home) -> bool
    ensures { result ≡ list_any (overlap (location_of at.now)) (list_at (map (map location_of) all.now) j) }
{
    if j < all.len() {
        return meets(&all[j], at);
    }
    false
}

/// Whether one that is noted, other than the branch with number k, may still write what overlaps the home.
fn is_near_taken(all: &[List<Home>], writers: &Table, k: usize, at: &Home) -> bool
    ensures { result ≡ list_any (is_hit (map (map location_of) all.now) k (location_of at.now)) (near writers.now (location_of at.now) (length all.now)) }
{
    for key in writers.near(at, all.len()) {
        if key.2 != k && meets_at(all, key.2, at) {
            return true;
        }
    }
    false
}

fn is_taken(all: &[List<Home>], writers: &Table, k: usize, at: &Home) -> bool
    requires { AllNoted writers.now (map (map location_of) all.now) }
    ensures { result ≡ is_taken (map (map location_of) all.now) k (location_of at.now) }
{
    is_near_taken(all, writers, k, at)
}

fn is_one_taken(all: &[List<Home>], writers: &Table, k: usize, reads: &[Home]) -> bool
    requires { AllNoted writers.now (map (map location_of) all.now) }
    ensures { result ≡ list_any (is_taken (map (map location_of) all.now) k) (map location_of reads.now) }
{
    for at in reads {
        if is_taken(all, writers, k, at) {
            return true;
        }
    }
    false
}

/// Whether the point of the branch with number k reads nothing that the other branches may still write.
pub fn is_free(point: &Point, all: &[List<Home>], writers: &Table, k: usize) -> bool
    requires { AllNoted writers.now (map (map location_of) all.now) }
    ensures { result ≡ is_free_of (map (map location_of) all.now) k (spot_of point.now) }
{
    !is_one_taken(all, writers, k, &point.reads)
}

/// Which of the points of the branch with number k read nothing that the other branches may still write. Fails only for want of memory.
pub fn flags(
    alloc: Global,
    points: &[Point],
    all: &[List<Home>],
    writers: &Table,
    k: usize,
) -> Result<List<bool>, NoMemory>
    requires { AllNoted writers.now (map (map location_of) all.now) }
    ensures { IfOk result (λ made. made ≡ flags_of (map (map location_of) all.now) k (map spot_of points.now)) }
{
    let mut made = List::new(alloc);
    for point in points {
        made.push(is_free(point, all, writers, k))?;
    }
    Ok(made)
}
