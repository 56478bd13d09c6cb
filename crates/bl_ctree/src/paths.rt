//! Lists of static paths.

ghost use Rattle.std.specs.Prelude.{◌≡◌, map, IfOk};
ghost use Rattle.bl_tree.specs.Static.{static_of};

use bl_effects::static_of;
use bl_tree::static_path::copy_of;
use bl_tree::tree::Path;
use bl_tree::{List, NoMemory, Static};
use std::alloc::Global;

/// The static paths of paths. Fails only for want of memory.
pub fn statics_of(alloc: Global, paths: &[Path]) -> Result<List<Static>, NoMemory>
    ensures { IfOk result (λ given. given ≡ map static_of paths.now) }
{
    let mut statics = List::new(alloc);
    for path in paths {
        statics.push(static_of(alloc, path)?)?;
    }
    Ok(statics)
}

/// Copies of static paths. Fails only for want of memory.
pub fn copies_of(alloc: Global, paths: &[Static]) -> Result<List<Static>, NoMemory>
    ensures { IfOk result (λ made. made ≡ paths.now) }
{
    let mut made = List::new(alloc);
    for path in paths {
        made.push(copy_of(alloc, path)?)?;
    }
    Ok(made)
}
