//! The numbers of a machine's counters tell where a run stands between ticks. One lemma (`specs/Counters.antt`,
//! `NumbersTellTrees`). Two trees that runs of one accepted program reach, once begun, are the same when woken if their
//! counters have the same numbers. So each tick from the one is a tick from the other. Counters of instances that a
//! tree doesn't call may differ.
#![tactic(auto)]

ghost use Rattle.bl_machine_pass_laws_counters.specs.Counters.{NumbersTellTrees};

use bl_ctree::laws::trees_stay_left;
use bl_ctree_laws::bridge::{answers_are_plain, statements_are_plain, waking_is_plain};
use bl_ctree_laws::runs::ticks_have_one_end;
use bl_ctree_laws_confluence::deeds::{accepted_programs_are_orderly, instances_nest};
use bl_ctree_laws_confluence::independent::accepted_programs_are_independent;
use bl_ctree_laws_plain::plain_trees_tell;
use bl_ctree_laws_traces::progress::accepted_trees_fit_graphs;
use bl_machine_laws::passes::ticks_are_passes;
use bl_machine_laws::traces::machines_have_one_trace;
use bl_machine_pass_laws::keys::nodes_have_keys;
use bl_machine_pass_laws::numbers::trees_stay_placed;
use bl_machine_pass_laws::same::{numbers_tell, stays_residual};
use bl_machine_pass_laws_execution::machines::machines_give_contexts;

/// Between ticks a run of an accepted program stands where its counters tell.
pub fn numbers_tell_trees()
    ensures { NumbersTellTrees }
{
    trees_stay_left();
    statements_are_plain();
    answers_are_plain();
    waking_is_plain();
    plain_trees_tell();
    ticks_have_one_end();
    accepted_programs_are_orderly();
    instances_nest();
    accepted_programs_are_independent();
    accepted_trees_fit_graphs();
    ticks_are_passes();
    machines_have_one_trace();
    nodes_have_keys();
    trees_stay_placed();
    stays_residual();
    numbers_tell();
    machines_give_contexts();
}
