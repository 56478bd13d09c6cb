//! The branches at the end of a tree's spine as they are listed, and what an action makes of one of them.

ghost use Rattle.std.specs.Prelude.{◌≡◌, map, IfOk, IfSome, Some};
ghost use Rattle.bl_ctree.specs.Nodes.{Seen, control_of, seen_of};
ghost use Rattle.bl_ctree.specs.Store.{homes};
ghost use Rattle.bl_ctree_enabled.specs.Listing.{Lists, enabled_view, flags_of, listing_in, spots_from, spots_in};
ghost use Rattle.bl_ctree_enabled.specs.Spots.{homes_seen, spot_of};
ghost use Rattle.bl_ctree_pending.specs.Writes.{write_paths};
ghost use Rattle.bl_ctree_store.specs.Seen.{location_of, setting_in};
ghost use Rattle.bl_ctree_run.specs.inner.Spines.{FitsListed, ListsEnd, fork_at, led, listed_by};
ghost use Rattle.bl_ctree_run.specs.inner.Spots.{after_by};

use crate::after::after;
use crate::points::points;
use crate::spine::fork_at;
use bl_ctree::node::{Branch, Node};
use bl_ctree_enabled::laws::listings_tell_points;
use bl_ctree_enabled::{Found, Listing, Point};
use bl_ctree_pending::pending;
use bl_ctree_store::home::append_homes;
use bl_ctree_store::{Home, Setting};
use bl_tree::{List, NoMemory};
use std::alloc::Global;

/// What is kept of a branch that changes.
#[derive(Drop)]
pub struct Kept<'a> {
    /// The branch's number.
    pub branch: usize,
    pub found: Found<'a>,
    /// Which of the points found read nothing that another branch may still write.
    pub free: List<bool>,
}

/// The tree to which an action leads: a whole one, or that of a branch of which something is kept.
#[derive(Drop)]
pub struct Next<'a> {
    pub tree: Node<'a>,
    pub kept: Option<Kept<'a>>,
}

/// The homes to which a tree may still write. Fails only for want of memory, as all that follows.
fn homes_of(alloc: Global, w: &Setting, i: u32, tree: &Node) -> Result<List<Home>, NoMemory>
    ensures { IfOk result (λ found. map location_of found ≡ homes (setting_in w.now) i (write_paths (control_of tree.now))) }
{
    let mut paths = List::new(alloc);
    pending(alloc, tree, &mut paths)?;
    let mut homes = List::new(alloc);
    append_homes(alloc, w, i, &paths, &mut homes)?;
    Ok(homes)
}

/// The points of a tree that is the branch with number k.
fn points_of<'a>(
    alloc: Global,
    w: &Setting<'a>,
    i: u32,
    k: usize,
    tree: &Node<'a>,
) -> Result<List<Point<'a>>, NoMemory>
    ensures { IfOk result (λ found. map spot_of found ≡ spots_in (setting_in w.now) i k (control_of tree.now)) }
{
    let mut found = List::new(alloc);
    points(alloc, w, i, tree, &[k], &mut found)?;
    Ok(found)
}

fn branch_homes(alloc: Global, w: &Setting, i: u32, branch: &Branch) -> Result<List<Home>, NoMemory>
    ensures { IfOk result (λ found. map location_of found ≡ homes_seen (setting_in w.now) i (seen_of branch.now)) }
{
    homes_of(alloc, w, i, &branch.tree)
}

fn all_homes(
    alloc: Global,
    w: &Setting,
    i: u32,
    branches: &[Branch],
) -> Result<List<List<Home>>, NoMemory>
    ensures { IfOk result (λ made. map (map location_of) made ≡ map (homes_seen (setting_in w.now) i) (map seen_of branches.now)) }
{
    let mut made = List::new(alloc);
    for branch in branches {
        made.push(branch_homes(alloc, w, i, branch)?)?;
    }
    Ok(made)
}

fn branch_points<'a>(
    alloc: Global,
    w: &Setting<'a>,
    i: u32,
    k: usize,
    branch: &Branch<'a>,
) -> Result<List<Point<'a>>, NoMemory>
    ensures { IfOk result (λ found. map spot_of found ≡ spots_in (setting_in w.now) i k (seen_of branch.now).tree) }
{
    points_of(alloc, w, i, k, &branch.tree)
}

fn all_points<'a>(
    alloc: Global,
    w: &Setting<'a>,
    i: u32,
    branches: &[Branch<'a>],
) -> Result<List<List<Point<'a>>>, NoMemory>
    ensures { IfOk result (λ made. map (map spot_of) made ≡ spots_from (setting_in w.now) i 0 (map seen_of branches.now)) }
{
    let mut made = List::new(alloc);
    for k in 0..branches.len() {
        made.push(branch_points(alloc, w, i, k, &branches[k])?)?;
    }
    Ok(made)
}

fn listing_of<'a>(
    alloc: Global,
    w: &Setting<'a>,
    i: u32,
    branches: &[Branch<'a>],
) -> Result<Listing<'a>, NoMemory>
    ensures { IfOk result (λ made. enabled_view made ≡ listing_in (setting_in w.now) (record { instance = i; branches = map seen_of branches.now })) }
{
    let homes = all_homes(alloc, w, i, branches)?;
    let points = all_points(alloc, w, i, branches)?;
    Listing::of(alloc, homes, points)
}

/// The branches at the end of the spine as they are listed; none where there are none.
pub fn listed<'a>(
    alloc: Global,
    w: &Setting<'a>,
    node: &Node<'a>,
) -> Result<Option<Listing<'a>>, NoMemory>
    ensures { IfOk result (λ made. ListsEnd (setting_in w.now) (control_of node.now) (listed_by made)) }
{
    let fork = fork_at(0, node);
    if fork.branches.is_empty() {
        return Ok(None);
    }
    let listing = listing_of(alloc, w, fork.instance, fork.branches)?;
    Ok(Some(listing))
}

/// What is kept of the branch with number k once it is this tree.
fn kept_of<'a>(
    alloc: Global,
    w: &Setting<'a>,
    i: u32,
    k: usize,
    tree: &Node<'a>,
    listing: &Listing<'a>,
) -> Result<Kept<'a>, NoMemory>
    ensures branch { IfOk result (λ kept. kept.branch ≡ k) }
    ensures homes { IfOk result (λ kept. map location_of kept.found.homes ≡ homes (setting_in w.now) i (write_paths (control_of tree.now))) }
    ensures spots { IfOk result (λ kept. map spot_of kept.found.points ≡ spots_in (setting_in w.now) i k (control_of tree.now)) }
    ensures free { IfOk result (λ kept. kept.free ≡ flags_of (enabled_view listing.now).homes k (map spot_of kept.found.points)) }
{
    let homes = homes_of(alloc, w, i, tree)?;
    let points = points_of(alloc, w, i, k, tree)?;
    let free = listing.flags(alloc, &points, k)?;
    Ok(Kept {
        branch: k,
        found: Found { homes, points },
        free,
    })
}

/// What an answer of the point to which these branches lead makes of one of those that are listed; none where the point is that of another node.
pub fn change<'a>(
    alloc: Global,
    w: &Setting<'a>,
    node: &Node<'a>,
    listing: &Listing<'a>,
    path: &[usize],
    answer: bool,
) -> Result<Option<Next<'a>>, NoMemory>
    requires { Lists (setting_in w.now) (fork_at 0 (control_of node.now)) (enabled_view listing.now) }
    ensures fits { IfOk result (λ found. IfSome found (FitsListed (setting_in w.now) (control_of node.now) (Some (enabled_view listing.now)))) }
    ensures leads { IfOk result (λ found. IfSome found (λ next. led (control_of node.now) next
        ≡ after_by (setting_in w.now) 0 (control_of node.now) path.now answer)) }
{
    listings_tell_points();
    let Some((k, rest)) = path.split_first() else {
        return Ok(None);
    };
    let fork = fork_at(0, node);
    if *k >= fork.branches.len() {
        return Ok(None);
    }
    let tree = after(
        alloc,
        w,
        fork.instance,
        &fork.branches[*k].tree,
        rest,
        answer,
    )?;
    let kept = kept_of(alloc, w, fork.instance, *k, &tree, listing)?;
    Ok(Some(Next {
        tree,
        kept: Some(kept),
    }))
}
