//! How many cells the C of an activity needs. Lemmas only (`specs/Cells.antt`). The `run`s in the C of an activity call
//! what the activity runs (`BodiesRun`). The activity, with its C function and the most that a callee reaches, needs no
//! more cells than rule Cells counts for it (`ActivityCells`). A premise is the same for its callees.

ghost use Rattle.bl_tree.specs.declared.program.Program.{Program};
ghost use Rattle.bl_emit_spec_laws_wellformed_bodies.specs.Cells.{ActivityCells, BodiesRun};

use crate::signed::none_loops;
use bl_emit_functions_laws_wellformed::numbered::{types_have_scalars, units_counted};
use bl_emit_spec_laws_wellformed::costs::bodies_cost;
use bl_limits_measures::laws::units_add_up;
use bl_limits_measures_laws::laws::units_use_earlier_ones;
use bl_machine_pass_laws::numbers::trees_stay_placed;

/// The `run`s in the C of an activity call what the activity runs, in order.
pub fn bodies_run()
    ensures { (program : Program) → BodiesRun program.structs program.units program.entry }
{
    trees_stay_placed();
}

/// The C of an activity needs no more cells than rule Cells counts for the activity.
pub fn activity_cells()
    ensures { (program : Program) → ActivityCells program.structs program.units program.entry }
{
    bodies_run();
    types_have_scalars();
    units_counted();
    bodies_cost();
    none_loops();
    units_add_up();
    units_use_earlier_ones();
}
