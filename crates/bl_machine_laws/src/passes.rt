//! One pass over a tick, on control trees and stores alone. Lemmas only. In each tree at its place, from each store,
//! the nodes of an instance have their turns in the order of their numbers. A `run` makes the whole pass of the
//! instance that it calls. When no turn is left, nothing is left to do, or a deed trapped (`specs/Passes/Pass.antt`).
//! In a program that passes the rules, the pass of a tick is a maximal list of its steps, from each reachable state and
//! over each row (`specs/Passes/Ticks.antt`).
//!
//! The numbers rise along all edges of the tick graphs and differ between the nodes of a body. Such numbers exist where
//! the tick graphs have orders (`specs/Passes/Orders.antt`). Each step of a pass is the lowest that could be taken
//! (`specs/Passes/Low.antt`).

ghost use Rattle.bl_machine_laws.specs.Passes.Orders.{GraphsGiveOrders};
ghost use Rattle.bl_machine_laws.specs.Passes.Pass.{InstancesHavePasses};
ghost use Rattle.bl_machine_laws.specs.Passes.Ticks.{TicksArePasses};

use crate::numbers::{turns_are_walks, turns_wait};
use crate::waiting::{turns_lead_on, waits_in_part};
use bl_ctree::laws::{lists_of_steps, trees_stay_left};
use bl_ctree_laws::bridge::{
    answers_are_plain, statements_are_plain, steps_are_plain, waking_is_plain,
};
use bl_ctree_laws::runs::reached_trees_are_armed;
use bl_ctree_laws::shrinking::{acting_is_open, steps_shrink};
use bl_ctree_laws_confluence::deeds::{accepted_programs_are_orderly, instances_nest};
use bl_ctree_laws_traces::progress::{
    accepted_trees_fit_graphs, bodies_fit_graph, nodes_are_in_part, programs_are_callable,
    steps_keep_fits_graph, unsettled_could,
};
use bl_ctree_laws_traces::ready::{orders_give_ranks, reached_lowest_may_act};
use bl_graph::graphs_stay_within;

/// Orders of the tick graphs give numbers by which a pass can go.
pub fn graphs_give_orders()
    ensures { GraphsGiveOrders }
{
    graphs_stay_within();
    orders_give_ranks();
}

/// Over each tree at its place a pass can be made from each store, to its end or to a trap.
pub fn instances_have_passes()
    ensures { InstancesHavePasses }
{
    acting_is_open();
    steps_shrink();
    turns_are_walks();
    turns_wait();
    bodies_fit_graph();
    steps_keep_fits_graph();
    turns_lead_on();
    waits_in_part();
    graphs_stay_within();
    instances_nest();
}

/// Each tick of an accepted program can be taken by a pass, which is a maximal list of its steps, as is what leads to a trap.
pub fn ticks_are_passes()
    ensures { TicksArePasses }
{
    reached_lowest_may_act();
    steps_are_plain();
    acting_is_open();
    answers_are_plain();
    trees_stay_left();
    reached_trees_are_armed();
    lists_of_steps();
    waking_is_plain();
    statements_are_plain();
    nodes_are_in_part();
    unsettled_could();
    accepted_trees_fit_graphs();
    programs_are_callable();
    accepted_programs_are_orderly();
    instances_have_passes();
}
