//! Turns of the instances of an accepted program that is made of a source text, made by rules with all that they call.
//! One lemma (`specs/Performs.antt`): a pass by rules simulates a turn at its node, where the copies hold what the node
//! asks for. A `run` copies inputs, clears the frames inside where it begins, makes the pass of its callee, and gives
//! the result (`AllTurnsPerform`). So the premise of `PassesExecute` of `passes` holds for each instance.

ghost use Rattle.bl_machine_pass_laws_execution.specs.Performs.{AllTurnsPerform};

use crate::frames::frames_nest;
use crate::fresh::{bodies_ask, deeds_are_seen, own_is_seen, trees_ask};
use crate::passes::{passes_execute, points_are_of_nodes};
use bl_ctree_laws_confluence::apart::accepted_programs_run_apart;
use bl_ctree_laws_confluence::deeds::instances_nest;
use bl_ctree_laws_traces::progress::{
    bodies_fit_graph, programs_are_callable, steps_keep_fits_graph,
};
use bl_machine_laws::numbers::{turns_are_walks, turns_wait};
use bl_machine_laws::waiting::waking_keeps_numbers;
use bl_machine_pass_laws::numbers::first_counter_tells;
use bl_machine_pass_laws_turns::turns::{passes_begin, trees_stand};

/// All turns are made by rules.
pub fn all_turns_perform()
    ensures { AllTurnsPerform }
{
    accepted_programs_run_apart();
    instances_nest();
    bodies_fit_graph();
    programs_are_callable();
    steps_keep_fits_graph();
    turns_are_walks();
    turns_wait();
    waking_keeps_numbers();
    passes_execute();
    points_are_of_nodes();
    frames_nest();
    passes_begin();
    trees_stand();
    first_counter_tells();
    deeds_are_seen();
    own_is_seen();
    trees_ask();
    bodies_ask();
}
