//! What holds of every C file that is run over numbered cells.

ghost use Rattle.bl_ctext_semantics.specs.Parts.{parts_of};
ghost use Rattle.bl_ctext_semantics_laws.specs.Laws.{StartsAgree, StartsRun, TicksAgree, TicksRun};

use bl_ctext::CFile;

/// A tick of a well-formed file that needs at most 1,000,000 cells does over numbered cells what it does in the file's
/// meaning.
pub fn ticks_agree(_file: &CFile)
    ensures { TicksAgree (parts_of _file.now) }
{}

/// The same of the start.
pub fn starts_agree(_file: &CFile)
    ensures { StartsAgree (parts_of _file.now) }
{}

/// A tick by the numbers of its cells and a row of inputs, which are set before it.
pub fn ticks_run(_file: &CFile)
    ensures { TicksRun (parts_of _file.now) }
{}

/// The start, from cells that are 0.
pub fn starts_run(_file: &CFile)
    ensures { StartsRun (parts_of _file.now) }
{}
