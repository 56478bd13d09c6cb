//! Trees that are woken where they lie.

ghost use Rattle.std.specs.Prelude.{◌≡◌, map, true};
ghost use Rattle.bl_ctree.specs.Control.{woken};
ghost use Rattle.bl_ctree.specs.Nodes.{branches_of, control_of, seen_of};
ghost use Rattle.bl_ctree_run.specs.inner.Wakings.{are_light, is_light, wake_seen};

use crate::spine::is_over;
use bl_ctree::node::{Branch, Node, Phase};
use bl_ctree::settle::is_nil;
use bl_tree::List;
use std::mem;

/// Whether the tree is woken without memory: nothing in it begins then.
#[cycle(lightness)]
pub fn is_light(node: &Node) -> bool
    ensures { result ≡ is_light (control_of node.now) }
{
    match node {
        Node::Idle(_) => false,
        Node::Nil
        | Node::Wait(_)
        | Node::Test(_)
        | Node::Do(_)
        | Node::Further(_)
        | Node::Turn(_) => true,
        Node::Seq(inner, rest) => !is_nil(inner) && !is_over(rest) && is_light(inner),
        Node::Par(_, _, branches) => are_light(branches),
        Node::Guard(_, _, _, inner) | Node::Run(_, _, _, _, inner) => is_light(inner),
    }
}

#[cycle(lightness)]
fn are_light(branches: &[Branch]) -> bool
    ensures { result ≡ are_light (branches_of (map seen_of branches.now)) }
{
    for branch in branches {
        if !is_light(&branch.tree) {
            return false;
        }
    }
    true
}

/// The same tree, woken where its parts lie, where it is light.
#[cycle(waking)]
fn woken_here<'a>(node: Node<'a>) -> Node<'a>
    ensures { is_light (control_of node.entry) ≡ true → control_of result ≡ woken (control_of node.entry) }
{
    match node {
        Node::Wait(s) => Node::Test(s),
        Node::Seq(inner, rest) => {
            let mut inner = inner;
            let old = mem::replace(&mut *inner, Node::Nil);
            *inner = woken_here(old);
            Node::Seq(inner, rest)
        }
        Node::Par(s, _, branches) => {
            let mut branches = branches;
            wake_all(&mut branches);
            Node::Par(s, true, branches)
        }
        Node::Guard(s, _, _, inner) => {
            let mut inner = inner;
            let old = mem::replace(&mut *inner, Node::Nil);
            *inner = woken_here(old);
            Node::Guard(s, Phase::Check, true, inner)
        }
        Node::Run(s, callee, _, _, inner) => {
            let mut inner = inner;
            let old = mem::replace(&mut *inner, Node::Nil);
            *inner = woken_here(old);
            Node::Run(s, callee, Phase::Check, true, inner)
        }
        other => other,
    }
}

#[cycle(waking)]
fn wake_all<'a>(branches: &mut List<Branch<'a>>)
    ensures { are_light (branches_of (map seen_of branches.old)) ≡ true → map seen_of branches.new ≡ map wake_seen (map seen_of branches.old) }
{
    for k in 0..branches.len() {
        let branch = branches.get_mut(k);
        let old = mem::replace(&mut branch.tree, Node::Nil);
        branch.tree = woken_here(old);
    }
}

/// The tree is woken where it lies.
pub fn wake<'a>(node: &mut Node<'a>)
    requires { is_light (control_of node.old) ≡ true }
    ensures { control_of node.new ≡ woken (control_of node.old) }
{
    let old = mem::replace(node, Node::Nil);
    *node = woken_here(old);
}
