//! The points of a tree that may act, in source order.

ghost use Rattle.std.specs.Prelude.{◌≡◌, ◌++◌, map, OnOk};
ghost use Rattle.bl_ctree.specs.Nodes.{branches_of, control_of, seen_of};
ghost use Rattle.bl_ctree.specs.Points.{branch_points, points};
ghost use Rattle.bl_ctree_store.specs.Seen.{setting_in};
ghost use Rattle.bl_ctree_enabled.specs.Spots.{spot_below, spot_of};

use crate::enabled::append_free;
use crate::point::{own, push};
use crate::writers::Writers;
use bl_ctree::copying::inside;
use bl_ctree::node::{Branch, Node, Phase};
use bl_ctree_enabled::Point;
use bl_ctree_store::Setting;
use bl_tree::{List, NoMemory};
use std::alloc::Global;

/// Appends the points of a tree that stands in the instance, below these branches. Fails only for want of memory.
#[cycle(points)]
pub fn points<'a>(
    alloc: Global,
    w: &Setting<'a>,
    i: u32,
    node: &Node<'a>,
    path: &[usize],
    into: &mut List<Point<'a>>,
) -> Result<(), NoMemory>
    ensures { OnOk result (map spot_of into.new ≡ map spot_of into.old ++ map (spot_below (setting_in w.now) path.now)
        (points (setting_in w.now) i (control_of node.now))) }
{
    let act = own(alloc, w, i, node)?;
    push(alloc, w, path, act, into)?;
    match node {
        Node::Seq(inner, _) => points(alloc, w, i, inner, path, into),
        Node::Guard(_, phase, _, inner) => match phase {
            Phase::Check => Ok(()),
            Phase::Body => points(alloc, w, i, inner, path, into),
        },
        Node::Run(_, callee, phase, _, inner) => match phase {
            Phase::Check => Ok(()),
            Phase::Body => points(alloc, w, *callee, inner, path, into),
        },
        Node::Par(_, _, branches) => branch_points(alloc, w, i, branches, path, into),
        _ => Ok(()),
    }
}

#[cycle(points)]
fn branch_points<'a>(
    alloc: Global,
    w: &Setting<'a>,
    i: u32,
    branches: &[Branch<'a>],
    path: &[usize],
    into: &mut List<Point<'a>>,
) -> Result<(), NoMemory>
    ensures { OnOk result (map spot_of into.new ≡ map spot_of into.old ++ map (spot_below (setting_in w.now) path.now)
        (branch_points (setting_in w.now) i (branches_of (map seen_of branches.now)))) }
{
    let writers = Writers::of(alloc, w, i, branches)?;
    for k in 0..branches.len() {
        let inner = inside(alloc, path, k)?;
        let mut found = List::new(alloc);
        points(alloc, w, i, &branches[k].tree, &inner, &mut found)?;
        append_free(found, &writers, k, into)?;
    }
    Ok(())
}
