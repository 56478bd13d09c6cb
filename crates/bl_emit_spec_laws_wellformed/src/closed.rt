//! The units that the entry of a program needs. Lemmas only (`specs/Closed.antt`): the entry is needed, and so is what
//! a needed unit calls or runs (`NeededClosed`). So the unit of each instance is needed (`InstancesNeeded`).

ghost use Rattle.bl_tree.specs.declared.program.Program.{Program};
ghost use Rattle.bl_emit_spec_laws_wellformed.specs.Closed.{InstancesNeeded, NeededClosed};

use bl_ctree_laws_confluence::deeds::instances_have_callers;
use bl_limits_measures_laws::laws::units_use_earlier_ones;

/// The entry is needed, and what needed units call or run.
pub fn needed_closed()
    ensures { (program : Program) → NeededClosed program.structs program.units program.entry }
{
    units_use_earlier_ones();
}

/// The units of instances are needed.
pub fn instances_needed()
    ensures { (program : Program) → InstancesNeeded program.structs program.units program.entry }
{
    needed_closed();
    instances_have_callers();
}
