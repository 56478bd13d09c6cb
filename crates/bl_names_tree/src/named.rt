//! A whole program.

use crate::item::{Item, NamedConstant, NamedStruct, NamedUnit};
use bl_tree::List;

/// A source program with positions in place of names.
#[derive(Drop)]
pub struct Named {
    /// In source order, as the constants and units are.
    pub structs: List<NamedStruct>,
    /// Those of the file and those of blocks.
    pub constants: List<NamedConstant>,
    pub units: List<NamedUnit>,
    /// What the items of the file are, in source order.
    pub order: List<Item>,
    /// How many bytes the text has: the place of what is missing.
    pub bytes: u32,
}
