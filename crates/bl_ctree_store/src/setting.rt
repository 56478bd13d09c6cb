//! A program with its instances.

ghost use Rattle.std.specs.Prelude.{◌<◌, ◌^◌, length};
ghost use Rattle.bl_ctree_store.specs.Callees.{IndexesCallees};

use crate::index::Callees;
use bl_ctree::instance::Instance;
use bl_tree::{List, Program};

/// A program that runs, and the instances to which it expands, the entry first.
#[derive(Drop)]
pub struct Setting<'a> {
    pub program: &'a Program,
    pub instances: List<Instance>,
    pub(crate) callees: Callees,
    pub ghost few: { length instances < 2 ^ 32 },
    pub ghost finds: { IndexesCallees callees instances },
}
