//! Trees and their parts once more. A failed tick leaves its tree as it was, so steps make new trees from old ones.

ghost use Rattle.std.specs.Prelude.{◌≡◌, ◌++◌, ◌∷◌, [], map, IfOk};
ghost use Rattle.bl_ctree.specs.Nodes.{control_of, items_of, items_then, left_of_arms, located, seen_of};

use crate::node::{Arms, At, Branch, Node, Rest, Then};
use bl_tree::{Box, List, NoMemory};
use std::alloc::Global;

/// The same position once more. Fails only for want of memory, as all that follows.
pub fn position(alloc: Global, position: &[usize]) -> Result<List<usize>, NoMemory>
    ensures { IfOk result (λ made. made ≡ position.now) }
{
    let mut made = List::new(alloc);
    for k in position {
        made.push(*k)?;
    }
    Ok(made)
}

/// The position with one further number.
pub fn inside(alloc: Global, outer: &[usize], k: usize) -> Result<List<usize>, NoMemory>
    ensures { IfOk result (λ made. made ≡ outer.now ++ k ∷ []) }
{
    let mut made = position(alloc, outer)?;
    made.push(k)?;
    Ok(made)
}

pub fn at<'a>(alloc: Global, at: &At<'a>) -> Result<At<'a>, NoMemory>
    ensures { IfOk result (λ made. located made ≡ located at.now) }
{
    Ok(At {
        stmt: at.stmt,
        position: position(alloc, &at.position)?,
    })
}

fn then<'a>(alloc: Global, then: &Then<'a>) -> Result<Then<'a>, NoMemory>
    ensures { IfOk result (λ made. items_then made ≡ items_then then.now) }
{
    match then {
        Then::Nothing => Ok(Then::Nothing),
        Then::Loop(owner) => Ok(Then::Loop(at(alloc, owner)?)),
        Then::Until(owner) => Ok(Then::Until(at(alloc, owner)?)),
    }
}

pub fn rest<'a>(alloc: Global, rest: &Rest<'a>) -> Result<Rest<'a>, NoMemory>
    ensures { IfOk result (λ made. items_of made ≡ items_of rest.now) }
{
    Ok(Rest {
        block: position(alloc, &rest.block)?,
        body: rest.body,
        next: rest.next,
        then: then(alloc, &rest.then)?,
    })
}

pub fn arms<'a>(alloc: Global, arms: &Arms<'a>) -> Result<Arms<'a>, NoMemory>
    ensures { IfOk result (λ made. left_of_arms made ≡ left_of_arms arms.now) }
{
    Ok(Arms {
        position: position(alloc, &arms.position)?,
        passed: arms.passed,
        arm: arms.arm,
        arms: arms.arms,
        other: arms.other,
    })
}

#[cycle(copying)]
pub fn tree<'a>(alloc: Global, node: &Node<'a>) -> Result<Node<'a>, NoMemory>
    ensures { IfOk result (λ made. control_of made ≡ control_of node.now) }
{
    match node {
        Node::Nil => Ok(Node::Nil),
        Node::Wait(s) => Ok(Node::Wait(at(alloc, s)?)),
        Node::Test(s) => Ok(Node::Test(at(alloc, s)?)),
        Node::Idle(items) => Ok(Node::Idle(rest(alloc, items)?)),
        Node::Do(s) => Ok(Node::Do(at(alloc, s)?)),
        Node::Further(left) => Ok(Node::Further(arms(alloc, left)?)),
        Node::Turn(s) => Ok(Node::Turn(at(alloc, s)?)),
        Node::Seq(inner, items) => {
            let inner = Box::new(alloc, tree(alloc, inner)?)?;
            Ok(Node::Seq(inner, rest(alloc, items)?))
        }
        Node::Par(s, stood, all) => {
            let all = branches(alloc, all)?;
            Ok(Node::Par(at(alloc, s)?, *stood, all))
        }
        Node::Guard(s, phase, stood, inner) => {
            let inner = Box::new(alloc, tree(alloc, inner)?)?;
            Ok(Node::Guard(at(alloc, s)?, *phase, *stood, inner))
        }
        Node::Run(s, callee, phase, stood, inner) => {
            let inner = Box::new(alloc, tree(alloc, inner)?)?;
            Ok(Node::Run(at(alloc, s)?, *callee, *phase, *stood, inner))
        }
    }
}

#[cycle(copying)]
fn branches<'a>(alloc: Global, all: &[Branch<'a>]) -> Result<List<Branch<'a>>, NoMemory>
    ensures { IfOk result (λ made. map seen_of made ≡ map seen_of all.now) }
{
    let mut made = List::new(alloc);
    for branch in all {
        made.push(Branch {
            weak: branch.weak,
            tree: tree(alloc, &branch.tree)?,
        })?;
    }
    Ok(made)
}
