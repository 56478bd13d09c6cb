//! Sets of static paths.

ghost use Rattle.std.specs.Prelude.{◌≡◌};
ghost use Rattle.bl_tree.specs.Static.{set_of};

use bl_tree::{List, Static};

/// The paths in ascending order, each once.
pub fn set_of(paths: List<Static>) -> List<Static>
    ensures { result ≡ set_of paths }
{
    let mut paths = paths.into_vec();
    paths.sort_unstable();
    paths.dedup();
    List::from_vec(paths)
}
