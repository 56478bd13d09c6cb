//! The C functions of the units that the entry of a program needs, in order. No clause fails in them, where the structs
//! of the file stand before them, each activity meets its conditions (`specs/Lists.antt`, `AllConditions`), and rules
//! Frames and Cells hold. What fails in a list that begins with them fails behind them, where the functions of needed
//! units are known (`PartsWellFormed`).

ghost use Rattle.bl_tree.specs.declared.program.Program.{Program};
ghost use Rattle.bl_emit_spec_laws_wellformed_bodies.specs.Lists.{PartsWellFormed};

use crate::signed::{activities_signed, activities_well_formed};
use bl_ctext_semantics_laws_calls::called::faults_follow;
use bl_emit_functions_laws_wellformed::files::{chains_grow, chains_short};
use bl_emit_functions_laws_wellformed::formed::{functions_signed, functions_well_formed};
use bl_emit_spec_laws_wellformed::chains::{
    activities_call_few, activity_chains_grow, activity_chains_short,
};
use bl_emit_spec_laws_wellformed::closed::needed_closed;
use bl_limits_measures_laws::laws::units_use_earlier_ones;
use bl_machine_pass_laws::numbers::trees_stay_placed;

/// Nothing fails in the C functions of the units that the entry needs.
pub fn parts_well_formed()
    ensures { (program : Program) → PartsWellFormed program.structs program.units program.entry }
{
    units_use_earlier_ones();
    needed_closed();
    trees_stay_placed();
    faults_follow();
    functions_well_formed();
    functions_signed();
    chains_grow();
    chains_short();
    activities_well_formed();
    activities_signed();
    activities_call_few();
    activity_chains_grow();
    activity_chains_short();
}
