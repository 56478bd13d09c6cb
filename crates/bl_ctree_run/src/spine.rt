//! The way from the root of a tree down to the `cobegin` for which all else in the tree waits.

ghost use Rattle.std.specs.Prelude.{◌≡◌, map};
ghost use Rattle.bl_ctree.specs.Nodes.{control_of, items_of, items_then, seen_of};
ghost use Rattle.bl_ctree.specs.Positions.{none_left};
ghost use Rattle.bl_ctree_enabled.specs.Listing.{with_branch};
ghost use Rattle.bl_ctree_run.specs.inner.Spines.{fork_at, leads_on, with_fork};

use bl_ctree::node::{Branch, Node, Phase, Rest, Then};
use bl_ctree_enabled::branch::{top_of, with_branch};
use std::mem;

/// Branches of a `cobegin`, and the instance in which they stand.
#[derive(Clone, Copy)]
pub struct Fork<'b, 'a> {
    pub instance: u32,
    pub branches: &'b [Branch<'a>],
}

fn is_nothing(then: &Then) -> bool
    ensures { result ≡ none_left (items_then then.now) }
{
    match then {
        Then::Nothing => true,
        Then::Loop(_) | Then::Until(_) => false,
    }
}

/// Whether no item is left.
pub fn is_over(rest: &Rest) -> bool
    ensures { result ≡ none_left (items_of rest.now) }
{
    if rest.next < rest.body.len() {
        false
    } else {
        is_nothing(&rest.then)
    }
}

/// Whether the spine leads on below the node.
fn leads_on(node: &Node) -> bool
    ensures { result ≡ leads_on (control_of node.now) }
{
    match node {
        Node::Seq(_, rest) => !is_over(rest),
        Node::Guard(_, phase, _, _) | Node::Run(_, _, phase, _, _) => *phase == Phase::Body,
        _ => false,
    }
}

/// The branches of the `cobegin` at the end of the spine of a tree that stands in the instance; none where it ends in another node.
pub fn fork_at<'b, 'a>(i: u32, node: &'b Node<'a>) -> Fork<'b, 'a>
    ensures { fork_at i (control_of node.now) ≡ record { instance = result.instance; branches = map seen_of result.branches.now } }
{
    if !leads_on(node) {
        return Fork {
            instance: i,
            branches: top_of(node),
        };
    }
    match node {
        Node::Seq(inner, _) | Node::Guard(_, _, _, inner) => fork_at(i, inner),
        Node::Run(_, callee, _, _, inner) => fork_at(*callee, inner),
        _ => Fork {
            instance: i,
            branches: top_of(node),
        },
    }
}

fn put_branch<'a>(node: &mut Node<'a>, k: usize, tree: Node<'a>)
    ensures { control_of node.new ≡ with_branch (control_of node.old) k (control_of tree.entry) }
{
    if k < top_of(node).len() {
        let old = mem::replace(node, Node::Nil);
        *node = with_branch(old, k, tree);
    }
}

/// The branch with number k of the `cobegin` at the end of the spine becomes another tree.
pub fn put<'a>(node: &mut Node<'a>, k: usize, tree: Node<'a>)
    ensures { control_of node.new ≡ with_fork (control_of node.old) k (control_of tree.entry) }
{
    if !leads_on(node) {
        return put_branch(node, k, tree);
    }
    match node {
        Node::Seq(inner, _) => put(inner, k, tree),
        Node::Guard(_, _, _, inner) => put(inner, k, tree),
        Node::Run(_, _, _, _, inner) => put(inner, k, tree),
        _ => {}
    }
}
