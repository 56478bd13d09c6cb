//! The trace of an accepted program as passes by rules show it. One lemma (`specs/Runs.antt`). Over all rows that fit,
//! there is a run of one pass by rules a tick, from frames and a store alone. It has the only trace that the semantics
//! of the program allows (`RunsGoByRules`). The same holds for the machine of each accepted program, with the numbers
//! that the machine lists.

ghost use Rattle.bl_machine_pass_laws_execution.specs.Runs.{RunsGoByRules};

use crate::fresh::stores_are_fresh;
use crate::machines::machines_give_contexts;
use crate::ticks::ticks_execute;
use bl_ctree_laws::bridge::statements_are_plain;
use bl_ctree_laws_traces::progress::{
    bodies_fit_graph, programs_are_callable, waking_keeps_fits_graph,
};
use bl_machine_laws::passes::instances_have_passes;
use bl_machine_laws::traces::runs_of_passes_are_meant;

/// Passes by rules show the only trace that the meaning allows.
pub fn runs_go_by_rules()
    ensures { RunsGoByRules }
{
    statements_are_plain();
    bodies_fit_graph();
    programs_are_callable();
    waking_keeps_fits_graph();
    instances_have_passes();
    runs_of_passes_are_meant();
    stores_are_fresh();
    machines_give_contexts();
    ticks_execute();
}
