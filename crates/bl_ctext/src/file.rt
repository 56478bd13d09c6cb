//! Texts of the C subset as trees.

ghost use Rattle.std.specs.Prelude.{IsTrue};
ghost use Rattle.bl_ctext.specs.Spellable.{is_spellable};

use bl_tree::List;
use bl_tree::c::{CFunc, CStruct};

/// A text of the C subset as a tree.
#[derive(Drop)]
pub struct CFile {
    pub structs: List<CStruct>,
    pub funcs: List<CFunc>,
    /// Every part of it has a spelling, and it holds at least one struct and one function.
    pub ghost spellable: { IsTrue (is_spellable structs funcs) },
}
