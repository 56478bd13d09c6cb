//! Which trees have something left to do in this tick.

ghost use Rattle.std.specs.Prelude.{◌≡◌, map};
ghost use Rattle.bl_ctree.specs.Control.{are_done, are_settled, has_strong, is_nil, is_settled, some_ended, strong_ended};
ghost use Rattle.bl_ctree.specs.Nodes.{branches_of, control_of, seen_of};

use crate::node::{Branch, Node, Phase};

/// Whether the tree has ended.
pub fn is_nil(node: &Node) -> bool
    ensures { result ≡ is_nil (control_of node.now) }
{
    match node {
        Node::Nil => true,
        _ => false,
    }
}

pub fn has_strong(branches: &[Branch]) -> bool
    ensures { result ≡ has_strong (branches_of (map seen_of branches.now)) }
{
    for branch in branches {
        if !branch.weak {
            return true;
        }
    }
    false
}

fn strong_ended(branches: &[Branch]) -> bool
    ensures { result ≡ strong_ended (branches_of (map seen_of branches.now)) }
{
    for branch in branches {
        if !branch.weak && !is_nil(&branch.tree) {
            return false;
        }
    }
    true
}

fn some_ended(branches: &[Branch]) -> bool
    ensures { result ≡ some_ended (branches_of (map seen_of branches.now)) }
{
    for branch in branches {
        if is_nil(&branch.tree) {
            return true;
        }
    }
    false
}

/// Whether so many branches have ended that their `cobegin` ends.
pub fn are_done(branches: &[Branch]) -> bool
    ensures { result ≡ are_done (branches_of (map seen_of branches.now)) }
{
    if has_strong(branches) {
        strong_ended(branches)
    } else {
        some_ended(branches)
    }
}

/// Whether nothing is left to do in this tick.
#[cycle(settling)]
pub fn is_settled(node: &Node) -> bool
    ensures { result ≡ is_settled (control_of node.now) }
{
    match node {
        Node::Nil | Node::Wait(_) | Node::Idle(_) => true,
        Node::Test(_) | Node::Do(_) | Node::Further(_) | Node::Turn(_) => false,
        Node::Seq(inner, _) => is_settled(inner),
        Node::Par(_, _, branches) => are_settled(branches) && !are_done(branches),
        Node::Guard(_, phase, _, inner) | Node::Run(_, _, phase, _, inner) => {
            *phase == Phase::Body && is_settled(inner) && !is_nil(inner)
        }
    }
}

#[cycle(settling)]
pub fn are_settled(branches: &[Branch]) -> bool
    ensures { result ≡ are_settled (branches_of (map seen_of branches.now)) }
{
    for branch in branches {
        if !is_settled(&branch.tree) {
            return false;
        }
    }
    true
}
