//! One call of the C function of an activity simulates a pass of the instance by rules (`specs/Activities.antt`,
//! `CallsSimulate`). Premises are that the function begins as a pass does, that its pointers lead to what the call
//! gives, and that its blocks simulate the pass. The same holds for the functions of all activities of a program, each
//! over those before it (`AllActivitiesSimulate`).

ghost use Rattle.bl_emit_spec_laws.specs.Activities.{AllActivitiesSimulate, CallsSimulate};

use bl_ctree_laws_confluence::deeds::{accepted_programs_are_orderly, instances_nest};
use bl_emit_functions_laws_simulation::calls::calls_keep;

/// Calls of functions that begin as passes do and go on as passes do are passes.
pub fn calls_simulate()
    ensures { CallsSimulate }
{
    instances_nest();
    calls_keep();
}

/// The functions of all activities, one after the other.
pub fn activities_simulate()
    ensures { AllActivitiesSimulate }
{
    accepted_programs_are_orderly();
    calls_simulate();
}
