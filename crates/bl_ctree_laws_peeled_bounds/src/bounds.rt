//! The bound on ticks of programs whose activities are peeled. The function does nothing: the contract is the law.

ghost use Rattle.bl_ctree_laws_peeled_bounds.specs.Bounds.{PeeledIsBounded};

use bl_ctree::laws::{lists_of_steps, trees_stay_left};
use bl_ctree_laws::bridge::{
    answers_are_plain, statements_are_plain, steps_are_plain, waking_is_plain,
};
use bl_ctree_laws::residual::bodies_stay_residual;
use bl_ctree_laws::runs::{lists_are_plain, reached_trees_are_armed, reached_trees_are_residual};
use bl_ctree_laws::shrinking::{acting_is_open, steps_shrink};
use bl_ctree_laws_confluence::deeds::{accepted_programs_are_orderly, instances_have_callers};
use bl_ctree_laws_traces::bounded::{steps_are_six_each, tick_steps_are_few, ticks_have_passes};
use bl_ctree_laws_traces::progress::{
    accepted_trees_fit_graphs, programs_are_callable, steps_keep_fits_graph,
};
use bl_graph::{branches_part, instants_pass};

/// Where the program with activities peeled is accepted, and its nodes have numbers that rise along control edges, its number of steps
/// bounds each tick of the program itself.
pub fn peeled_programs_are_bounded()
    ensures { PeeledIsBounded }
{
    accepted_programs_are_orderly();
    accepted_trees_fit_graphs();
    acting_is_open();
    answers_are_plain();
    bodies_stay_residual();
    branches_part();
    instances_have_callers();
    instants_pass();
    lists_are_plain();
    lists_of_steps();
    programs_are_callable();
    reached_trees_are_armed();
    reached_trees_are_residual();
    statements_are_plain();
    steps_are_plain();
    steps_are_six_each();
    steps_keep_fits_graph();
    steps_shrink();
    tick_steps_are_few();
    ticks_have_passes();
    trees_stay_left();
    waking_is_plain();
}
