//! In what the homes of a branch differ from those that it had.

ghost use Rattle.std.specs.Prelude.{◌≡◌, ◌≤◌, ◌-◌, IsTrue, drop, length, map, take};
ghost use Rattle.bl_ctree_store.specs.Seen.{location_of};
ghost use Rattle.bl_ctree_enabled.specs.inner.Asked.{DecidedBy};

use bl_ctree_store::Home;

/// A part of the homes that a branch had, and the part of those that it has in its place.
#[derive(Clone, Copy)]
pub struct Change<'h> {
    pub gone: &'h [Home],
    pub come: &'h [Home],
}

fn same_home(a: &Home, b: &Home) -> bool
    ensures { IsTrue result → location_of a.now ≡ location_of b.now }
{
    a.instance == b.instance && a.root == b.root && a.fields.as_slice() == b.fields.as_slice()
}

/// How many homes both begin with.
fn common_front(a: &[Home], b: &[Home]) -> usize
    ensures in_a { result ≤ length a.now }
    ensures in_b { result ≤ length b.now }
    ensures same { take result (map location_of a.now) ≡ take result (map location_of b.now) }
{
    for k in 0..a.len() {
        if k >= b.len() {
            return k;
        }
        if !same_home(&a[k], &b[k]) {
            return k;
        }
    }
    a.len()
}

/// How many homes both end with.
fn common_back(a: &[Home], b: &[Home]) -> usize
    ensures in_a { result ≤ length a.now }
    ensures in_b { result ≤ length b.now }
    ensures same { drop (length a.now - result) (map location_of a.now) ≡ drop (length b.now - result) (map location_of b.now) }
{
    for k in 0..a.len() {
        if k >= b.len() {
            return k;
        }
        if !same_home(&a[a.len() - 1 - k], &b[b.len() - 1 - k]) {
            return k;
        }
    }
    a.len()
}

fn behind_front<'h>(before: &'h [Home], now: &'h [Home]) -> Change<'h>
    ensures { DecidedBy (map location_of result.gone.now) (map location_of result.come.now) (map location_of before.now) (map location_of now.now) }
{
    let front = common_front(before, now);
    Change {
        gone: &before[front..],
        come: &now[front..],
    }
}

fn before_back<'h>(before: &'h [Home], now: &'h [Home]) -> Change<'h>
    ensures { DecidedBy (map location_of result.gone.now) (map location_of result.come.now) (map location_of before.now) (map location_of now.now) }
{
    let back = common_back(before, now);
    Change {
        gone: &before[..before.len() - back],
        come: &now[..now.len() - back],
    }
}

/// In what two lists of homes differ, without what both begin with and what both end with.
pub fn change_of<'h>(before: &'h [Home], now: &'h [Home]) -> Change<'h>
    ensures { DecidedBy (map location_of result.gone.now) (map location_of result.come.now) (map location_of before.now) (map location_of now.now) }
{
    let change = behind_front(before, now);
    before_back(change.gone, change.come)
}
