//! The C of activities has a spelling: that of the function (`specs/Spelled.antt`, `ActivitiesFit`), and the structs of
//! where an activity rests (`FramesSpelled`) and of what it remembers (`RememberedSpelled`). Premises are that 64 bits
//! hold the numbers in its names, that the values of its counters fit their types, and that what its nodes do fits
//! (`CanSpell`). A test of many ends is a tree of logarithmic depth, so no more brackets are open than a C text may
//! have.

ghost use Rattle.bl_tree.specs.declared.program.Program.{Program};
ghost use Rattle.bl_emit_spec_laws_wellformed.specs.Spelled.{ActivitiesFit, FramesSpelled, RememberedSpelled};

use bl_emit_acts_laws_wellformed::spelled::{expressions_fit, places_fit};
use bl_emit_functions_laws_wellformed::spelled::{acts_fit, members_spelled};

/// The C function of an activity has a spelling, which is no deeper than that of a C text may be.
pub fn activities_fit()
    ensures { (program : Program) → ActivitiesFit program.structs program.units program.entry }
{
    expressions_fit();
    places_fit();
    acts_fit();
}

/// The struct of where an activity rests has a spelling.
pub fn frames_spelled()
    ensures { (program : Program) → FramesSpelled program.structs program.units program.entry }
{}

/// The struct of what an activity remembers has a spelling.
pub fn remembered_spelled()
    ensures { (program : Program) → RememberedSpelled program.structs program.units program.entry }
{
    members_spelled();
}
