//! A point that is chosen.

ghost use Rattle.std.specs.Prelude.{◌≡◌, IfOk};
ghost use Rattle.bl_ctree_enabled.specs.Spots.{spot_of};
ghost use Rattle.bl_ctree_run.specs.inner.Spots.{unread};

use bl_ctree::copying::position;
use bl_ctree_enabled::Point;
use bl_tree::{List, NoMemory};
use std::alloc::Global;

/// The same point without what it reads. Fails only for want of memory.
pub fn chosen<'a>(alloc: Global, point: &Point<'a>) -> Result<Point<'a>, NoMemory>
    ensures { IfOk result (λ made. spot_of made ≡ unread (spot_of point.now)) }
{
    Ok(Point {
        place: point.place,
        instance: point.instance,
        effect: point.effect,
        reads: List::new(alloc),
        path: position(alloc, &point.path)?,
    })
}
