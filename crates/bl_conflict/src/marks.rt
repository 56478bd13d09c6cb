//! Static paths with the places that rules name.

ghost use Rattle.std.specs.Prelude.{◌≡◌, map, IfOk};
ghost use Rattle.bl_effects.specs.Rules.{marked_path};
ghost use Rattle.bl_tree.specs.Static.{is_front, overlaps};

use bl_effects::{Marked, static_of};
use bl_tree::tree::Path;
use bl_tree::{List, NoMemory, Static};
use std::alloc::Global;

/// A path with its own place.
pub fn marked_path(alloc: Global, path: &Path) -> Result<Marked, NoMemory>
    ensures { IfOk result (λ marked. marked ≡ marked_path path.now) }
{
    Ok(Marked {
        place: path.place,
        path: static_of(alloc, path)?,
    })
}

/// The paths with their own places, in order.
pub fn marked_paths(alloc: Global, paths: &[Path]) -> Result<List<Marked>, NoMemory>
    ensures { IfOk result (λ marked. marked ≡ map marked_path paths.now) }
{
    let mut marked = List::new(alloc);
    for path in paths {
        marked.push(marked_path(alloc, path)?)?;
    }
    Ok(marked)
}

/// Whether the first fields are a front of the second.
fn is_front(a: &[u32], b: &[u32]) -> bool
    ensures { result ≡ is_front a.now b.now }
{
    for k in 0..a.len() {
        if k >= b.len() {
            return false;
        }
        if a[k] != b[k] {
            return false;
        }
    }
    true
}

/// Whether the two name something in common.
pub fn overlaps(a: &Static, b: &Static) -> bool
    ensures { result ≡ overlaps a.now b.now }
{
    a.root == b.root && (is_front(&a.fields, &b.fields) || is_front(&b.fields, &a.fields))
}
