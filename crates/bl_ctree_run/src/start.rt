//! The tree of a program before its first tick.

ghost use Rattle.std.specs.Prelude.{◌≡◌};
ghost use Rattle.bl_ctree.specs.Control.{Idle};
ghost use Rattle.bl_ctree.specs.Means.{entry_items};
ghost use Rattle.bl_ctree.specs.Nodes.{control_of};
ghost use Rattle.bl_ctree.specs.Positions.{body_items};
ghost use Rattle.bl_ctree_store.specs.Seen.{setting_in};

use bl_ctree::node::{Node, Rest, Then};
use bl_ctree_store::Setting;
use bl_ctree_store::callee::unit_at;
use bl_tree::List;
use bl_tree::tree::Stmt;
use std::alloc::Global;

fn entry_body<'a>(w: &Setting<'a>) -> &'a [Stmt]
    ensures { body_items result.now ≡ entry_items (setting_in w.now) }
{
    match unit_at(w, 0) {
        None => &[],
        Some(unit) => unit.body.as_slice(),
    }
}

/// The body of the entry's activity, which has not begun.
pub fn idle<'a>(alloc: Global, w: &Setting<'a>) -> Node<'a>
    ensures { control_of result ≡ Idle (entry_items (setting_in w.now)) }
{
    Node::Idle(Rest {
        block: List::new(alloc),
        body: entry_body(w),
        next: 0,
        then: Then::Nothing,
    })
}
