//! The C of a machine's activities. The C of an activity has a spelling (`specs/Machines.antt`, `MachinesSpell`), and
//! the numbers in its names differ (`MachinesDiffer`). The activity's unit has at most
//! a million cells.

ghost use Rattle.bl_tree.specs.declared.program.Program.{Program};
ghost use Rattle.bl_emit_spec_laws_wellformed.specs.Machines.{MachinesDiffer, MachinesSpell};

use crate::counts::nodes_counted;
use crate::nodes::rules_fit;
use crate::numbers::{nodes_numbered, numbers_follow};
use crate::rests::rules_stand;
use bl_emit_functions_laws_wellformed::numbered::cells_number;
use bl_limits_measures::laws::units_add_up;
use bl_limits_measures_laws::laws::units_use_earlier_ones;

/// What the C of a machine's activity is made of has a spelling.
pub fn machines_spell()
    ensures { (program : Program) → MachinesSpell program.structs program.units program.entry }
{
    units_use_earlier_ones();
    units_add_up();
    cells_number();
    nodes_counted();
    rules_fit();
    rules_stand();
    nodes_numbered();
}

/// The numbers in the names of a machine's activity differ.
pub fn machines_differ()
    ensures { (program : Program) → MachinesDiffer program.structs program.units program.entry }
{
    units_use_earlier_ones();
    units_add_up();
    cells_number();
    nodes_counted();
    nodes_numbered();
    numbers_follow();
}
