//! The C functions of activities are well formed. Calls expect the parameters of the C function of an activity
//! (`specs/Signed.antt`, `ActivitiesSigned`), and it has no loops (`NoneLoops`). No clause fails in it
//! (`ActivitiesWellFormed`), if what it needs stands before it, no earlier function has its name, and it heads no chain
//! of more than 300 calls.

ghost use Rattle.bl_tree.specs.declared.program.Program.{Program};
ghost use Rattle.bl_emit_spec_laws_wellformed_bodies.specs.Signed.{ActivitiesSigned, ActivitiesWellFormed, NoneLoops};

use crate::bodies::activity_bodies_well_formed;
use bl_emit_spec_laws_wellformed::names::locals_differ;

/// The C function of an activity has the parameters that are asked of it where it is called.
pub fn activities_signed()
    ensures { ActivitiesSigned }
{}

/// The C function of an activity has no loops.
pub fn none_loops()
    ensures { NoneLoops }
{}

/// Nothing fails in the C function of an activity of a typed program.
pub fn activities_well_formed()
    ensures { (program : Program) → ActivitiesWellFormed program.structs program.units program.entry }
{
    activity_bodies_well_formed();
    locals_differ();
    none_loops();
}
