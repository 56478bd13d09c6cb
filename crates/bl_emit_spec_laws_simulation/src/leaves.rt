//! The postcondition of the C call of a `run`. One lemma (`specs/Leaves.antt`, `AllRunsLeave`). Once the callee's C
//! function has simulated a pass, memory represents the caller again, with the variables, counters and results that the
//! pass left. Nothing was written that the caller may not write. If the callee may end, the locals of the `run` tell
//! whether its body has ended, and with which result.

ghost use Rattle.bl_emit_spec_laws_simulation.specs.Leaves.{AllRunsLeave};

use bl_ctree_laws_confluence::deeds::{
    accepted_programs_are_orderly, homes_are_apart, instances_have_callers, instances_nest,
};
use bl_ctree_laws_confluence::stores::stores_are_local;
use bl_ctree_laws_typing::views::views_are_typed;
use bl_emit_acts_laws_simulation::frames_apart;
use bl_emit_spec_laws::cleared::clearing_is_inside;
use bl_emit_spec_laws::registers::registers_apart;
use bl_emit_spec_laws::remember::callees_remember;
use bl_emit_spec_laws_nodes::views::remembering_stands;
use bl_machine_pass_laws::keys::nodes_have_keys;
use bl_machine_pass_laws::numbers::trees_stay_placed;
use bl_machine_pass_laws_execution::kept::{inputs_go_in, outputs_lead, passes_keep, rules_run};
use bl_machine_pass_laws_typing::fits::turns_fit;

/// The call of a `run` leaves what a pass by rules of the called instance leaves.
pub fn runs_leave()
    ensures { AllRunsLeave }
{
    accepted_programs_are_orderly();
    homes_are_apart();
    instances_have_callers();
    instances_nest();
    views_are_typed();
    stores_are_local();
    frames_apart();
    registers_apart();
    clearing_is_inside();
    callees_remember();
    remembering_stands();
    turns_fit();
    inputs_go_in();
    outputs_lead();
    passes_keep();
    rules_run();
    nodes_have_keys();
    trees_stay_placed();
}
