//! Ticks are bounded: what acts in one tick has different labels, in each tree that stands in the tick graph of its unit
//! where the nodes of each activity have numbers that rise along its control edges (`specs/Bounded/Differ.antt`). All these labels
//! are of passes through bodies. These are listed, and an instance is passed once for itself and by each copy of its `run` whenever
//! its caller is (`specs/Bounded/TickPasses.antt`): of the copies at one place at most one stood when the tick began. So where nodes
//! have such numbers no list of steps of one tick of a program that passes the rules on effects is longer than what its passed
//! statements come to (`specs/Bounded/Bounds.antt`). There is no code here.

ghost use Rattle.bl_ctree_laws_traces.specs.Bounded.Bounds.{AcceptedIsBounded};
ghost use Rattle.bl_ctree_laws_traces.specs.Bounded.Differ.{TicksDiffer};
ghost use Rattle.bl_ctree_laws_traces.specs.Bounded.TickPasses.{StepsAreSixEach, TickStepsAreFew, TicksHavePasses};

use crate::progress::{accepted_trees_fit_graphs, programs_are_callable, steps_keep_fits_graph};
use bl_ctree::laws::trees_stay_left;
use bl_ctree_laws::bridge::{statements_are_plain, waking_is_plain};
use bl_ctree_laws::residual::bodies_stay_residual;
use bl_ctree_laws::runs::{lists_are_plain, reached_trees_are_residual};
use bl_ctree_laws::shrinking::{acting_is_open, steps_shrink};
use bl_ctree_laws_confluence::apart::accepted_programs_run_apart;
use bl_ctree_laws_confluence::deeds::{accepted_programs_are_orderly, instances_have_callers};
use bl_graph::{branches_part, graphs_stay_within, instants_pass};

/// The labels of the steps of one tick differ, a trapping step counted.
pub fn ticks_differ()
    ensures { TicksDiffer }
{
    instants_pass();
    branches_part();
    acting_is_open();
    steps_shrink();
    steps_keep_fits_graph();
}

/// The passes of a tick of an accepted program have all steps that could be taken in it, and are no more than its instances may be passed.
pub fn ticks_have_passes()
    ensures { TicksHavePasses }
{
    trees_stay_left();
    statements_are_plain();
    waking_is_plain();
    reached_trees_are_residual();
    bodies_stay_residual();
    acting_is_open();
    steps_keep_fits_graph();
    accepted_trees_fit_graphs();
    accepted_programs_are_orderly();
    accepted_programs_run_apart();
    programs_are_callable();
    instances_have_callers();
    graphs_stay_within();
}

/// Where nodes have numbers that rise, a list of steps of one tick has at most five for each statement that is passed.
pub fn tick_steps_are_few()
    ensures { TickStepsAreFew }
{
    trees_stay_left();
    statements_are_plain();
    waking_is_plain();
    reached_trees_are_residual();
    bodies_stay_residual();
    acting_is_open();
    steps_keep_fits_graph();
    accepted_trees_fit_graphs();
    accepted_programs_are_orderly();
    accepted_programs_run_apart();
    programs_are_callable();
    instances_have_callers();
    graphs_stay_within();
    ticks_differ();
}

/// The number of steps of a program is six for each statement that is passed.
pub fn steps_are_six_each()
    ensures { StepsAreSixEach }
{}

/// Where nodes have numbers that rise, no list of steps of one tick is longer than the program's number of steps.
pub fn accepted_is_bounded()
    ensures { AcceptedIsBounded }
{
    trees_stay_left();
    lists_are_plain();
    steps_are_six_each();
    tick_steps_are_few();
}
