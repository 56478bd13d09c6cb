//! Laws of the meaning of C texts.

ghost use Rattle.bl_ctext_semantics.specs.Ends.{AlwaysEnds};
ghost use Rattle.bl_ctext_semantics.specs.Laws.{TraceResumes, WithinBound};
ghost use Rattle.bl_ctext_semantics.specs.Parts.{parts_of};

use bl_ctext::CFile;

/// The bodies of a well-formed file's functions end by a trap or by what their results ask for, so every tick
/// comes to a row, to the run's end or to a trap.
pub fn always_ends(_file: &CFile)
    ensures { AlwaysEnds (parts_of _file.now) }
{}

/// No tick executes more statements than the file's bound.
pub fn within_bound(_file: &CFile)
    ensures { WithinBound (parts_of _file.now) }
{}

/// A trace over rows is that over the first of them and then the one that goes on from there.
pub fn goes_on(_file: &CFile)
    ensures { TraceResumes (parts_of _file.now) }
{}
