//! The static paths that branches write, by root and first field. A path that begins otherwise overlaps none of them, and
//! isn't compared with each.

ghost use Rattle.std.specs.BTreeSet.{contains};
ghost use Rattle.std.specs.Ordering.{nat_cmp};
ghost use Rattle.std.specs.Prelude.{◌≡◌, ◌||◌, ℕ, false, true, OnOk};
ghost use Rattle.bl_conflict.specs.inner.Roots.{Grows, HasPath, part_cmp};
ghost use Rattle.bl_tree.specs.declared.static_path.Static.{Static as StaticPath};
ghost use Rattle.bl_tree.specs.Static.{overlaps};

use bl_tree::{NoMemory, Static};
use std::alloc::{AllocError, Global};
use std::collections::BTreeSet;

/// The static paths that were written, by root and first field.
#[derive(Drop)]
pub struct Touched {
    /// The roots of all of them.
    pub roots: BTreeSet<u32>,
    /// The roots of those without fields.
    pub wholes: BTreeSet<u32>,
    /// The roots of those with fields, with their first fields.
    pub parts: BTreeSet<(u32, u32)>,
}

impl Touched {
    pub fn new(alloc: Global) -> Touched {
        Touched {
            roots: BTreeSet::new(alloc),
            wholes: BTreeSet::new(alloc),
            parts: BTreeSet::new(alloc),
        }
    }

    /// Adds a path. Fails only for want of memory.
    pub fn add(&mut self, path: &Static) -> Result<(), NoMemory>
        ensures has { OnOk result (HasPath self.new path.now) }
        ensures keeps { OnOk result (Grows self.old self.new) }
    {
        add_root(&mut self.roots, path.root)?;
        match path.fields.as_slice() {
            [] => add_root(&mut self.wholes, path.root),
            [field, ..] => add_part(&mut self.parts, path.root, *field),
        }
    }

    /// Whether one of the paths may overlap this one. Those that begin with the same field and differ in a later one count too.
    pub fn may_meet(&self, path: &Static) -> bool
        ensures { result ≡ false → (other : StaticPath) → HasPath self.now other → overlaps other path.now ≡ false }
    {
        match path.fields.as_slice() {
            [] => self.roots.contains(&path.root),
            [field, ..] => self.has_front(path.root, *field),
        }
    }

    /// Whether the root was written as a whole, or in this field of it.
    fn has_front(&self, root: u32, field: u32) -> bool
        ensures { result ≡ (contains nat_cmp self.now.wholes root || contains part_cmp self.now.parts (root, field)) }
    {
        self.wholes.contains(&root) | self.parts.contains(&(root, field))
    }
}

fn add_root(roots: &mut BTreeSet<u32>, root: u32) -> Result<(), NoMemory>
    ensures has { OnOk result (contains nat_cmp roots.new root ≡ true) }
    ensures keeps { OnOk result ((q : ℕ) → contains nat_cmp roots.old q ≡ true → contains nat_cmp roots.new q ≡ true) }
{
    match roots.insert(root) {
        Ok(_) => Ok(()),
        Err(e) => Err(AllocError::from(e).into()),
    }
}

fn add_part(parts: &mut BTreeSet<(u32, u32)>, root: u32, field: u32) -> Result<(), NoMemory>
    ensures has { OnOk result (contains part_cmp parts.new (root, field) ≡ true) }
    ensures keeps { OnOk result ((q : ℕ × ℕ) → contains part_cmp parts.old q ≡ true → contains part_cmp parts.new q ≡ true) }
{
    match parts.insert((root, field)) {
        Ok(_) => Ok(()),
        Err(e) => Err(AllocError::from(e).into()),
    }
}
