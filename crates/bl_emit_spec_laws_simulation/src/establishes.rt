//! The precondition of the C call of a `run`. One lemma (`specs/Establishes.antt`, `AllRunsEstablish`). In the middle
//! of a pass, the call hands over the callee's frame and memory, its inputs, and the places of the outputs, the result
//! and, if the callee may end, the end flag. They are apart, and memory represents at them what a pass of the callee begins with. Where an
//! input traps, so does the call. A premise is that what the arguments name under a `prev` is copied.

ghost use Rattle.bl_tree.specs.declared.program.Program.{Program};
ghost use Rattle.bl_emit_spec_laws_simulation.specs.Establishes.{AllRunsEstablish};

use bl_ctree_laws_confluence::deeds::{instances_have_callers, instances_nest};
use bl_ctree_laws_confluence::stores::{frames_keep_others, stores_are_local};
use bl_ctree_laws_typing::views::views_are_typed;
use bl_emit_acts_laws_simulation::{arguments_pass, frames_apart};
use bl_emit_spec_laws::remember::callees_remember;
use bl_emit_spec_laws_nodes::prevs::prevs_agree;
use bl_machine_pass_laws::numbers::trees_stay_placed;
use bl_machine_pass_laws_execution::kept::{outputs_lead, rules_run};

/// The call that is written for a `run` gives the callee what a pass of it begins with.
pub fn runs_establish()
    ensures { (program : Program) → AllRunsEstablish program.structs program.units program.entry }
{
    instances_have_callers();
    instances_nest();
    views_are_typed();
    stores_are_local();
    arguments_pass();
    frames_apart();
    prevs_agree();
    callees_remember();
    frames_keep_others();
    rules_run();
    trees_stay_placed();
    outputs_lead();
}
