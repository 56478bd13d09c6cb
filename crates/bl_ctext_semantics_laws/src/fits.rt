//! Values of C types and memories that fit a file, with their laws (docs/C_SUBSET.md, "Meaning").

ghost use Rattle.bl_ctext_semantics.specs.Parts.{parts_of};
ghost use Rattle.bl_ctext_semantics_laws.specs.Fitting.{BuiltinsFit, CellsFit, ClearedFits, ReadingFits, SettingFits};

use bl_ctext::CFile;

/// Cleared memory fits every file.
pub fn cleared_fits(_file: &CFile)
    ensures { ClearedFits (parts_of _file.now) }
{}

/// In a memory that fits a well-formed file, a place of a type has a value of that type.
pub fn reading_fits(_file: &CFile)
    ensures { ReadingFits (parts_of _file.now) }
{}

/// A memory that fits a well-formed file still fits it after a place of a type was set to a value of that type.
pub fn setting_fits(_file: &CFile)
    ensures { SettingFits (parts_of _file.now) }
{}

/// In a memory that fits a file, the number of each cell of the three objects is in the range of its type.
pub fn cells_fit(_file: &CFile)
    ensures { CellsFit (parts_of _file.now) }
{}

/// A function of the prelude gives a number of its result's type for numbers of its parameters' types, or traps.
pub fn builtins_fit()
    ensures { BuiltinsFit }
{}
