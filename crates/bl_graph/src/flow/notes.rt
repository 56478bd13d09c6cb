//! Tables of nodes by static paths: which nodes were noted with a path that overlaps another.

ghost use Rattle.std.specs.BTreeMap.{is_at};
ghost use Rattle.std.specs.Map.{lookup};
ghost use Rattle.std.specs.Prelude.{◌≡◌, ◌≤◌, ◌∷◌, [], Some, cond, length, IfOk, OnOk};
ghost use Rattle.bl_tree.specs.Order.{static_cmp};
ghost use Rattle.bl_graph.specs.inner.Found.{notes_of};
ghost use Rattle.bl_graph.specs.inner.Noted.{HasNotesAndFronts, Noting, NotingAll, front, fronts_to, note};

use crate::accesses::Access;
use crate::part::after;
use bl_tree::static_path::copy_of;
use bl_tree::{List, NoMemory, Static};
use std::alloc::{AllocError, Global};
use std::collections::BTreeMap;
use std::marker::Model;

/// By static paths the positions of the last accesses that wrote them.
#[derive(Drop)]
pub struct ByPath {
    by_path: BTreeMap<Static, u32>,
}

impl Model for ByPath {
    ghost use Rattle.std.specs.Prelude.{ℕ, List};
    ghost use Rattle.bl_tree.specs.declared.static_path.Static.{Static};

    ghost Value = { List (Static × ℕ) };

    ghost view = { λ table. table.by_path.entries };
}

impl ByPath {
    fn new(alloc: Global) -> ByPath
        ensures { result ≡ [] }
    {
        ByPath {
            by_path: BTreeMap::new(alloc),
        }
    }

    /// The last write of exactly this path.
    pub fn at(&self, path: &Static) -> Option<u32>
        ensures { result ≡ lookup (is_at (static_cmp path.now)) self.now }
    {
        match self.by_path.get(path) {
            Some(position) => Some(*position),
            None => None,
        }
    }

    fn insert(&mut self, path: Static, position: u32) -> Result<(), NoMemory>
        ensures { OnOk result ((q : _) → lookup (is_at (static_cmp q)) self.new
            ≡ cond (is_at (static_cmp path) q) (Some position) (lookup (is_at (static_cmp q)) self.old)) }
    {
        match self.by_path.insert(path, position) {
            Ok(_) => Ok(()),
            Err(e) => Err(AllocError::from(e).into()),
        }
    }

    /// Notes the node with the path. Fails only for want of memory, as all that follows.
    fn note(&mut self, path: Static, node: u32, accesses: &mut List<Access>) -> Result<(), NoMemory>
        ensures { OnOk result (Noting accesses.old accesses.new self.old self.new (note node path ∷ [])) }
    {
        let position = after(0, accesses.len())?;
        accesses.push(Access::Write(node, self.at(&path)))?;
        self.insert(path, position)
    }

    /// Notes the node with a front of the path.
    fn note_front(
        &mut self,
        alloc: Global,
        path: &Static,
        count: usize,
        node: u32,
        accesses: &mut List<Access>,
    ) -> Result<(), NoMemory>
        requires { count ≤ length path.now.fields }
        ensures { OnOk result (Noting accesses.old accesses.new self.old self.new (note node (front path.now count) ∷ [])) }
    {
        let front = front(alloc, path, count)?;
        self.note(front, node, accesses)
    }

    /// Notes the node with each shorter front of the path.
    fn note_fronts(
        &mut self,
        alloc: Global,
        path: &Static,
        node: u32,
        accesses: &mut List<Access>,
    ) -> Result<(), NoMemory>
        ensures { OnOk result (Noting accesses.old accesses.new self.old self.new (fronts_to node path.now (length path.now.fields))) }
    {
        for k in 0..path.fields.len() {
            self.note_front(alloc, path, k, node, accesses)?;
        }
        Ok(())
    }
}

/// The path with so many of its fields.
pub fn front(alloc: Global, path: &Static, count: usize) -> Result<Static, NoMemory>
    requires { count ≤ length path.now.fields }
    ensures { IfOk result (λ made. made ≡ front path.now count) }
{
    let mut fields = List::new(alloc);
    for k in 0..count {
        fields.push(path.fields[k])?;
    }
    Ok(Static {
        root: path.root,
        fields,
    })
}

/// Nodes that were noted with static paths.
#[derive(Drop)]
pub struct Notes {
    /// By their paths and all fronts of these.
    pub within: ByPath,
    /// By their paths.
    pub exactly: ByPath,
}

impl Notes {
    pub fn new(alloc: Global) -> Notes
        ensures { (writers : _) → HasNotesAndFronts writers result [] }
    {
        Notes {
            within: ByPath::new(alloc),
            exactly: ByPath::new(alloc),
        }
    }

    fn note(
        &mut self,
        alloc: Global,
        path: &Static,
        node: u32,
        accesses: &mut List<Access>,
    ) -> Result<(), NoMemory>
        ensures { OnOk result (NotingAll accesses.old accesses.new self.old self.new (note node path.now ∷ [])) }
    {
        self.within.note_fronts(alloc, path, node, accesses)?;
        self.within.note(copy_of(alloc, path)?, node, accesses)?;
        self.exactly.note(copy_of(alloc, path)?, node, accesses)
    }

    /// Notes the node with each of the paths.
    pub fn note_all(
        &mut self,
        alloc: Global,
        paths: &[Static],
        node: u32,
        accesses: &mut List<Access>,
    ) -> Result<(), NoMemory>
        ensures { OnOk result (NotingAll accesses.old accesses.new self.old self.new (notes_of node paths.now)) }
    {
        for path in paths {
            self.note(alloc, path, node, accesses)?;
        }
        Ok(())
    }
}
