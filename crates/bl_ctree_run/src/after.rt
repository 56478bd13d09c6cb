//! The tree after a point has acted.

ghost use Rattle.std.specs.Prelude.{◌≡◌, ◌<◌, ◌++◌, ◌∷◌, [], length, map, IfOk, OnOk, if◌then◌else◌};
ghost use Rattle.bl_ctree.specs.Control.{Body, Guard, Nil, Run, is_nil};
ghost use Rattle.bl_ctree.specs.Nodes.{control_of, located, seen_of};
ghost use Rattle.bl_ctree_store.specs.Seen.{setting_in};
ghost use Rattle.bl_ctree_enabled.specs.Spots.{moved};
ghost use Rattle.bl_ctree_run.specs.inner.Spots.{after_by};

use crate::begin::{begins, checks, copying, further, tests, turns_on};
use bl_ctree::copying::{at, rest, tree};
use bl_ctree::node::{At, Branch, Node, Phase};
use bl_ctree::sequence::seq;
use bl_ctree::settle::is_nil;
use bl_ctree_store::Setting;
use bl_tree::{Box, List, NoMemory};
use std::alloc::Global;

/// Appends copies of branches. Fails only for want of memory, as all that follows.
fn append_branches<'a>(
    alloc: Global,
    branches: &[Branch<'a>],
    into: &mut List<Branch<'a>>,
) -> Result<(), NoMemory>
    ensures { OnOk result (map seen_of into.new ≡ map seen_of into.old ++ map seen_of branches.now) }
{
    for branch in branches {
        into.push(Branch {
            weak: branch.weak,
            tree: tree(alloc, &branch.tree)?,
        })?;
    }
    Ok(())
}

fn copies<'a>(alloc: Global, branches: &[Branch<'a>]) -> Result<List<Branch<'a>>, NoMemory>
    ensures { IfOk result (λ made. map seen_of made ≡ map seen_of branches.now) }
{
    let mut made = List::new(alloc);
    append_branches(alloc, branches, &mut made)?;
    Ok(made)
}

fn append_branch<'a>(
    weak: bool,
    tree: Node<'a>,
    into: &mut List<Branch<'a>>,
) -> Result<(), NoMemory>
    ensures { OnOk result (map seen_of into.new ≡ map seen_of into.old ++ record { weak = weak; tree = control_of tree.entry } ∷ []) }
{
    into.push(Branch { weak, tree })?;
    Ok(())
}

/// The branches, that with number k having this tree.
fn with_tree<'a>(
    alloc: Global,
    branches: &[Branch<'a>],
    k: usize,
    tree: Node<'a>,
) -> Result<List<Branch<'a>>, NoMemory>
    requires { k < length branches.now }
    ensures { IfOk result (λ made. map seen_of made ≡ moved (map seen_of branches.now) k (λ c. control_of tree.entry)) }
{
    let mut made = List::new(alloc);
    append_branches(alloc, &branches[..k], &mut made)?;
    append_branch(branches[k].weak, tree, &mut made)?;
    append_branches(alloc, &branches[k + 1..], &mut made)?;
    Ok(made)
}

/// The tree after the point to which these branches lead, by the answer of its action.
#[cycle(acting)]
pub fn after<'a>(
    alloc: Global,
    w: &Setting<'a>,
    i: u32,
    node: &Node<'a>,
    path: &[usize],
    answer: bool,
) -> Result<Node<'a>, NoMemory>
    ensures { IfOk result (λ made. control_of made ≡ after_by (setting_in w.now) i (control_of node.now) path.now answer) }
{
    match node {
        Node::Nil | Node::Wait(_) | Node::Idle(_) => Ok(Node::Nil),
        Node::Test(s) => tests(alloc, s, answer),
        Node::Do(s) => begins(alloc, w, i, s, answer),
        Node::Further(left) => further(alloc, left, answer),
        Node::Turn(s) => turns_on(alloc, s, answer),
        Node::Seq(inner, items) => {
            let inner = after(alloc, w, i, inner, path, answer)?;
            seq(alloc, inner, rest(alloc, items)?)
        }
        Node::Par(s, stood, branches) => match path.split_first() {
            None => Ok(Node::Nil),
            Some((k, path)) => {
                let branches = after_in(alloc, w, i, branches, *k, path, answer)?;
                Ok(Node::Par(at(alloc, s)?, *stood, branches))
            }
        },
        Node::Guard(s, phase, stood, inner) => match phase {
            Phase::Check => checks(alloc, s, *stood, inner, answer),
            Phase::Body => in_guard(alloc, w, i, s, *stood, inner, path, answer),
        },
        Node::Run(s, callee, phase, stood, inner) => match phase {
            Phase::Check => copying(alloc, s, *callee, *stood, inner),
            Phase::Body => in_run(alloc, w, s, *callee, *stood, inner, path, answer),
        },
    }
}

#[cycle(acting)]
fn in_guard<'a>(
    alloc: Global,
    w: &Setting<'a>,
    i: u32,
    s: &At<'a>,
    stood: bool,
    inner: &Node<'a>,
    path: &[usize],
    answer: bool,
) -> Result<Node<'a>, NoMemory>
    ensures { IfOk result (λ made. control_of made ≡ (if is_nil (control_of inner.now) then Nil else Guard (located s.now) Body stood
        (after_by (setting_in w.now) i (control_of inner.now) path.now answer))) }
{
    if is_nil(inner) {
        return Ok(Node::Nil);
    }
    let inner = Box::new(alloc, after(alloc, w, i, inner, path, answer)?)?;
    Ok(Node::Guard(at(alloc, s)?, Phase::Body, stood, inner))
}

#[cycle(acting)]
fn in_run<'a>(
    alloc: Global,
    w: &Setting<'a>,
    s: &At<'a>,
    callee: u32,
    stood: bool,
    inner: &Node<'a>,
    path: &[usize],
    answer: bool,
) -> Result<Node<'a>, NoMemory>
    ensures { IfOk result (λ made. control_of made ≡ (if is_nil (control_of inner.now) then Nil else Run (located s.now) callee Body stood
        (after_by (setting_in w.now) callee (control_of inner.now) path.now answer))) }
{
    if is_nil(inner) {
        return Ok(Node::Nil);
    }
    let inner = Box::new(alloc, after(alloc, w, callee, inner, path, answer)?)?;
    Ok(Node::Run(at(alloc, s)?, callee, Phase::Body, stood, inner))
}

/// The branches after the point to which these branches lead in the one with number k.
#[cycle(acting)]
fn after_in<'a>(
    alloc: Global,
    w: &Setting<'a>,
    i: u32,
    branches: &[Branch<'a>],
    k: usize,
    path: &[usize],
    answer: bool,
) -> Result<List<Branch<'a>>, NoMemory>
    ensures { IfOk result (λ made. map seen_of made ≡ moved (map seen_of branches.now) k (λ c. after_by (setting_in w.now) i c path.now answer)) }
{
    if k >= branches.len() {
        return copies(alloc, branches);
    }
    let tree = after(alloc, w, i, &branches[k].tree, path, answer)?;
    with_tree(alloc, branches, k, tree)
}
