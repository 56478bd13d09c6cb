//! The branches of a tree that is a `cobegin`.

ghost use Rattle.std.specs.Prelude.{◌≡◌, ◌<◌, Some, length, map, option_map, slice_get};
ghost use Rattle.bl_ctree.specs.Control.{Par};
ghost use Rattle.bl_ctree.specs.Nodes.{Seen, branches_of, control_of, located, seen_of};
ghost use Rattle.bl_ctree_enabled.specs.Listing.{top_of, with_branch};
ghost use Rattle.bl_ctree_enabled.specs.Spots.{moved};

use bl_ctree::node::{At, Branch, Node};
use bl_tree::List;

/// The branches of a `cobegin`; none of every other tree.
pub fn top_of<'b, 'a>(node: &'b Node<'a>) -> &'b [Branch<'a>]
    ensures { map seen_of result.now ≡ top_of (control_of node.now) }
{
    match node {
        Node::Par(_, _, branches) => branches.as_slice(),
        _ => &[],
    }
}

fn weak_at(branches: &[Branch], k: usize) -> bool
    requires { k < length branches.now }
    ensures { option_map (λ (b : Seen). b.weak) (slice_get (map seen_of branches.now) k) ≡ Some result }
{
    branches[k].weak
}

fn branch<'a>(weak: bool, tree: Node<'a>) -> Branch<'a>
    ensures { seen_of result ≡ record { weak = weak; tree = control_of tree.entry } }
{
    Branch { weak, tree }
}

fn put<'a>(branches: &mut List<Branch<'a>>, k: usize, tree: Node<'a>)
    requires { k < length branches.old }
    ensures { map seen_of branches.new ≡ moved (map seen_of branches.old) k (λ c. control_of tree.entry) }
{
    let weak = weak_at(branches.as_slice(), k);
    branches.set(k, branch(weak, tree));
}

fn par<'a>(s: At<'a>, stood: bool, branches: List<Branch<'a>>, k: usize, tree: Node<'a>) -> Node<'a>
    requires { k < length branches }
    ensures { control_of result ≡ with_branch (Par (located s.entry) stood (branches_of (map seen_of branches.entry))) k (control_of tree.entry) }
{
    let mut branches = branches;
    put(&mut branches, k, tree);
    Node::Par(s, stood, branches)
}

/// A `cobegin` of which the branch with number k becomes another tree.
pub fn with_branch<'a>(node: Node<'a>, k: usize, tree: Node<'a>) -> Node<'a>
    requires { k < length (top_of (control_of node)) }
    ensures { control_of result ≡ with_branch (control_of node.entry) k (control_of tree.entry) }
{
    match node {
        Node::Par(s, stood, branches) => par(s, stood, branches, k, tree),
        other => other,
    }
}
