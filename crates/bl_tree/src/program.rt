//! Typed programs, with what they keep.

ghost use Rattle.bl_tree.specs.Program.{IsWellTyped};

use crate::List;
use crate::tree::{StructDef, Unit};

/// A source program whose names are resolved and whose types fit (docs/INTERNALS.md, "Programs").
#[derive(Drop)]
pub struct Program {
    pub structs: List<StructDef>,
    pub units: List<Unit>,
    /// The position of the activity that the environment drives.
    pub entry: u32,
    pub ghost well_typed: { IsWellTyped structs units entry },
}
