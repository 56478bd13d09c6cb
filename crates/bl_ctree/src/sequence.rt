//! Sequences: what is left of a block, and trees that it follows.

ghost use Rattle.std.specs.Prelude.{◌≡◌, ◌<◌, ◌≤◌, IfOk, length};
ghost use Rattle.bl_ctree.specs.Control.{do_all, followed, seq};
ghost use Rattle.bl_ctree.specs.Nodes.{control_of, items_of, items_then};
ghost use Rattle.bl_ctree.specs.Positions.{none_left};

use crate::copying;
use crate::node::{At, Node, Rest, Then};
use crate::settle::is_nil;
use bl_tree::{Box, NoMemory};
use std::alloc::Global;

fn is_nothing(then: &Then) -> bool
    ensures { result ≡ none_left (items_then then.now) }
{
    match then {
        Then::Nothing => true,
        Then::Loop(_) | Then::Until(_) => false,
    }
}

/// Whether no item is left.
fn is_over(rest: &Rest) -> bool
    ensures { result ≡ none_left (items_of rest.now) }
{
    if rest.next < rest.body.len() {
        false
    } else {
        is_nothing(&rest.then)
    }
}

/// A tree and what follows it, where the tree has not ended.
fn before<'a>(alloc: Global, node: Node<'a>, rest: Rest<'a>) -> Result<Node<'a>, NoMemory>
    ensures { IfOk result (λ made. control_of made ≡ followed (control_of node.entry) (items_of rest.entry)) }
{
    if is_over(&rest) {
        Ok(node)
    } else {
        Ok(Node::Seq(Box::new(alloc, node)?, rest))
    }
}

/// The next statement of the block, and what is left then.
fn begin_first<'a>(alloc: Global, rest: Rest<'a>) -> Result<Node<'a>, NoMemory>
    requires { rest.next < length rest.body.now }
    ensures { IfOk result (λ made. control_of made ≡ do_all (items_of rest.entry)) }
{
    let Rest {
        block,
        body,
        next,
        then,
    } = rest;
    let first = At {
        stmt: &body[next],
        position: copying::inside(alloc, &block, next)?,
    };
    let after = Rest {
        block,
        body,
        next: next + 1,
        then,
    };
    before(alloc, Node::Do(first), after)
}

/// What follows the block.
fn begin_then<'a>(rest: Rest<'a>) -> Node<'a>
    requires { length rest.body.now ≤ rest.next }
    ensures { control_of result ≡ do_all (items_of rest.entry) }
{
    let Rest { then, .. } = rest;
    match then {
        Then::Nothing => Node::Nil,
        Then::Loop(at) => Node::Do(at),
        Then::Until(at) => Node::Turn(at),
    }
}

/// The items that are left, as they begin. Fails only for want of memory, as what follows.
pub fn do_all<'a>(alloc: Global, rest: Rest<'a>) -> Result<Node<'a>, NoMemory>
    ensures { IfOk result (λ made. control_of made ≡ do_all (items_of rest.entry)) }
{
    if rest.next < rest.body.len() {
        begin_first(alloc, rest)
    } else {
        Ok(begin_then(rest))
    }
}

/// A tree and what follows it.
pub fn seq<'a>(alloc: Global, node: Node<'a>, rest: Rest<'a>) -> Result<Node<'a>, NoMemory>
    ensures { IfOk result (λ made. control_of made ≡ seq (control_of node.entry) (items_of rest.entry)) }
{
    if is_nil(&node) {
        do_all(alloc, rest)
    } else {
        before(alloc, node, rest)
    }
}
