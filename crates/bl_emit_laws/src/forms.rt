//! The conditions of the C file of an accepted program on its units. One lemma: where no rule fails, each unit that the
//! entry needs meets them, with any machine of the program (`specs/Forms.antt`, `UnitsMeetConditions`).

ghost use Rattle.bl_tree.specs.declared.program.Program.{Program};
ghost use Rattle.bl_emit_laws.specs.Forms.{UnitsMeetConditions};

use bl_emit_spec_laws_nodes::copied::{nodes_copied, runs_copied};
use bl_emit_spec_laws_wellformed::counts::nodes_counted;
use bl_emit_spec_laws_wellformed::machines::{machines_differ, machines_spell};
use bl_emit_spec_laws_wellformed::needed::{needed_numbered, needed_small};
use bl_graph::graphs_stay_within;
use bl_limits_measures::laws::units_add_up;
use bl_limits_measures_laws::laws::units_use_earlier_ones;
use bl_machine_laws::rests::activities_count;
use bl_machine_pass_laws::flags::{flags_are_asked, flags_are_reached, flags_come_from_before};
use bl_machine_pass_laws::keys::nodes_have_keys;
use bl_machine_pass_laws::numbers::trees_stay_placed;
use bl_machine_pass_laws::spots::spots_differ;
use bl_machine_prevs_laws::scalar::prevs_are_scalar;
use bl_machine_transitions_laws::rules_are_listed;

/// All is so that is asked of the units that the entry of an accepted program needs.
pub fn all_form()
    ensures { (program : Program) → UnitsMeetConditions program.structs program.units program.entry }
{
    units_use_earlier_ones();
    units_add_up();
    nodes_counted();
    activities_count();
    machines_spell();
    machines_differ();
    needed_small();
    needed_numbered();
    spots_differ();
    trees_stay_placed();
    nodes_have_keys();
    rules_are_listed();
    graphs_stay_within();
    flags_come_from_before();
    flags_are_asked();
    flags_are_reached();
    nodes_copied();
    runs_copied();
    prevs_are_scalar();
}
