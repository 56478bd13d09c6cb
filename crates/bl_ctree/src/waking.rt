//! The start of a tick.

ghost use Rattle.std.specs.Prelude.{◌≡◌, map, IfOk};
ghost use Rattle.bl_ctree.specs.Control.{woken};
ghost use Rattle.bl_ctree.specs.Nodes.{control_of, seen_of};
ghost use Rattle.bl_ctree.specs.inner.Wakings.{wake_seen};

use crate::copying::{arms, at, rest};
use crate::node::{Branch, Node, Phase};
use crate::sequence::{do_all, seq};
use bl_tree::{Box, List, NoMemory};
use std::alloc::Global;

/// The tree as it is woken. Fails only for want of memory.
#[cycle(waking)]
pub fn woken<'a>(alloc: Global, node: &Node<'a>) -> Result<Node<'a>, NoMemory>
    ensures { IfOk result (λ made. control_of made ≡ woken (control_of node.now)) }
{
    match node {
        Node::Nil => Ok(Node::Nil),
        Node::Wait(s) | Node::Test(s) => Ok(Node::Test(at(alloc, s)?)),
        Node::Idle(items) => do_all(alloc, rest(alloc, items)?),
        Node::Do(s) => Ok(Node::Do(at(alloc, s)?)),
        Node::Further(left) => Ok(Node::Further(arms(alloc, left)?)),
        Node::Turn(s) => Ok(Node::Turn(at(alloc, s)?)),
        Node::Seq(inner, items) => seq(alloc, woken(alloc, inner)?, rest(alloc, items)?),
        Node::Par(s, _, branches) => {
            let branches = all_woken(alloc, branches)?;
            Ok(Node::Par(at(alloc, s)?, true, branches))
        }
        Node::Guard(s, _, _, inner) => {
            let inner = Box::new(alloc, woken(alloc, inner)?)?;
            Ok(Node::Guard(at(alloc, s)?, Phase::Check, true, inner))
        }
        Node::Run(s, callee, _, _, inner) => {
            let inner = Box::new(alloc, woken(alloc, inner)?)?;
            Ok(Node::Run(at(alloc, s)?, *callee, Phase::Check, true, inner))
        }
    }
}

#[cycle(waking)]
fn all_woken<'a>(alloc: Global, branches: &[Branch<'a>]) -> Result<List<Branch<'a>>, NoMemory>
    ensures { IfOk result (λ made. map seen_of made ≡ map wake_seen (map seen_of branches.now)) }
{
    let mut made = List::new(alloc);
    for branch in branches {
        made.push(Branch {
            weak: branch.weak,
            tree: woken(alloc, &branch.tree)?,
        })?;
    }
    Ok(made)
}
