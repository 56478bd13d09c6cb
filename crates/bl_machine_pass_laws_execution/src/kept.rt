//! What passes by rules leave unchanged. Lemmas only (`specs/Kept/Laws.antt`). A pass of an instance by rules changes
//! only what is inside the instance and the homes of its outputs (`specs/Kept/Kept.antt`), and only the counters inside
//! it (`PassesKeep`). The inputs of a `run` go to the frame of its callee (`InputsGoIn`). Each output of the callee has
//! the home of the path at its number among the outputs of the `run` (`OutputsLead`). A rule with the node of a `run`
//! belongs to one in the body (`RulesRun`): `specs/Kept/Outputs.antt`.

ghost use Rattle.bl_machine_pass_laws_execution.specs.Kept.Laws.{InputsGoIn, PassesKeep};
ghost use Rattle.bl_machine_pass_laws_execution.specs.Kept.Outputs.{OutputsLead, RulesRun};

use crate::fresh::deeds_are_seen;
use bl_ctree_laws_confluence::deeds::{instances_have_callers, instances_nest};
use bl_ctree_laws_confluence::stores::{frames_keep_others, puts_commute, stores_are_local};
use bl_machine_pass_laws::numbers::trees_stay_placed;

/// A pass leaves what isn't inside the instance, but for the homes of its outputs.
pub fn passes_keep()
    ensures { PassesKeep }
{
    instances_have_callers();
    instances_nest();
    stores_are_local();
    puts_commute();
    frames_keep_others();
    deeds_are_seen();
}

/// The inputs of a `run` go to the frame of what it calls.
pub fn inputs_go_in()
    ensures { InputsGoIn }
{}

/// Each output of what a `run` begins has the home of the path that stands at its number among the outputs of the `run`.
pub fn outputs_lead()
    ensures { OutputsLead }
{
    instances_have_callers();
}

/// A rule whose node is that of a `run` is of one in the body.
pub fn rules_run()
    ensures { RulesRun }
{
    trees_stay_placed();
}
