//! Actions that may be done next, as a caller is told of them.

ghost use Rattle.std.specs.Prelude.{◌≡◌, map, IfOk};
ghost use Rattle.bl_ctree_run.specs.Running.{action_at};
ghost use Rattle.bl_ctree_enabled.specs.Spots.{spot_of};

use bl_ctree_enabled::Point;
use bl_eval::Did;
use bl_tree::{List, NoMemory, Place};
use std::alloc::Global;

/// An action that a tree may do: the place of its statement, and the instance in which that stands.
#[derive(Clone, Copy, PartialEq, Eq, Debug)]
pub struct Action {
    pub place: Place,
    pub instance: u32,
}

/// A step that was tried: the action, and how it went.
#[derive(Clone, Copy, PartialEq, Eq, Debug)]
pub struct Step {
    pub action: Action,
    pub did: Did,
}

/// Tells of a point.
pub fn action_at(point: &Point) -> Action
    ensures { result ≡ action_at (spot_of point.now) }
{
    Action {
        place: point.place,
        instance: point.instance,
    }
}

/// Tells of points. Fails only for want of memory.
pub fn told(alloc: Global, found: &[Point]) -> Result<List<Action>, NoMemory>
    ensures { IfOk result (λ actions. actions ≡ map action_at (map spot_of found.now)) }
{
    let mut actions = List::new(alloc);
    for point in found {
        actions.push(action_at(point))?;
    }
    Ok(actions)
}
