//! Where numbers rise along the edges of tick graphs no tree that runs reach is stuck: the second part of progress. There is no code here.
//! Laws, as contracts of functions that do nothing: what keeps a step waiting writes what the nodes of its label read, each in its instance
//! (`specs/Ready/Touching.antt`). So where numbers rise along all control and data edges of the bodies, the lowest step that could be taken
//! may be taken (`specs/Ready/Ranks.antt`), and wherever something is left to do a step may be taken: there no tick of an accepted
//! program is stuck (`specs/Ready/Never.antt`). Orders of the tick graphs of its activities
//! are such numbers (`specs/Ready/Ordered.antt`), and they exist where neither of the rules Twice and Cycle fails.

ghost use Rattle.bl_ctree_laws_traces.specs.Ready.Never.{AcceptedNeverStuck, ReachedLowestMayAct, TypedCallsMatch, UnsettledMay};
ghost use Rattle.bl_ctree_laws_traces.specs.Ready.Ordered.{OrderedNeverStuck, OrdersGiveRanks, UnitsAreOrdered};
ghost use Rattle.bl_ctree_laws_traces.specs.Ready.Ranks.{LowestMayAct};
ghost use Rattle.bl_ctree_laws_traces.specs.Ready.Touching.{WritersTouchOnTheWay};

use crate::progress::{
    accepted_trees_fit_graphs, acts_or_waits, deeds_read_at_nodes, nodes_are_in_part,
    unsettled_could,
};
use bl_cause::laws::rules_leave_no_walk;
use bl_cause_laws::{bodies_have_graphs, graphs_without_walks_have_ranks};
use bl_ctree::laws::trees_stay_left;
use bl_ctree_laws::bridge::{answers_are_plain, statements_are_plain};
use bl_ctree_laws::runs::{lists_are_plain, reached_trees_are_armed, reached_trees_are_residual};
use bl_ctree_laws_confluence::apart::{
    deeds_stay_inside, residual_calls_match, typed_runs_have_outputs,
};
use bl_ctree_laws_confluence::deeds::{
    accepted_programs_are_orderly, homes_are_apart, instances_nest,
};
use bl_graph::graphs_stay_within;

/// What writes over what the deed of a step reads, in the instance of a node of the step's label, writes what that node reads.
pub fn writers_touch_on_the_way()
    ensures { WritersTouchOnTheWay }
{
    deeds_stay_inside();
    deeds_read_at_nodes();
    instances_nest();
    homes_are_apart();
}

/// Where numbers rise along all edges, a step that could be taken may be taken, or a lower one could be.
pub fn lowest_may_act()
    ensures { LowestMayAct }
{
    acts_or_waits();
    writers_touch_on_the_way();
}

/// So a step may be taken in each tree at its place in which something is left to do.
pub fn unsettled_may()
    ensures { UnsettledMay }
{
    lowest_may_act();
    unsettled_could();
}

/// In the trees that runs of a typed program reach each `run` has the callee that its place begins, with its own outputs.
pub fn typed_calls_stand()
    ensures { TypedCallsMatch }
{
    reached_trees_are_residual();
    statements_are_plain();
    typed_runs_have_outputs();
    residual_calls_match();
}

/// In the trees that runs of an accepted program reach the lowest step that could be taken may be taken.
pub fn reached_lowest_may_act()
    ensures { ReachedLowestMayAct }
{
    lowest_may_act();
    nodes_are_in_part();
    accepted_trees_fit_graphs();
    accepted_programs_are_orderly();
    statements_are_plain();
    typed_calls_stand();
}

/// So no tick of an accepted program is stuck, where numbers rise along all edges of the tick graphs of its activities.
pub fn accepted_programs_are_never_stuck()
    ensures { AcceptedNeverStuck }
{
    unsettled_may();
    unsettled_could();
    nodes_are_in_part();
    accepted_trees_fit_graphs();
    accepted_programs_are_orderly();
    trees_stay_left();
    reached_trees_are_armed();
    answers_are_plain();
    statements_are_plain();
    lists_are_plain();
    typed_calls_stand();
}

/// Orders of the tick graphs of the bodies give each instance numbers for its nodes that rise along all edges.
pub fn orders_give_ranks()
    ensures { OrdersGiveRanks }
{
    graphs_stay_within();
}

/// So no tick of an accepted program is stuck, where the tick graph of each activity has an order.
pub fn ordered_programs_are_never_stuck()
    ensures { OrderedNeverStuck }
{
    orders_give_ranks();
    accepted_programs_are_orderly();
    accepted_programs_are_never_stuck();
}

/// Where neither Twice nor Cycle fails by the tick graphs of units themselves, that of each activity has an order.
pub fn accepted_programs_are_ordered()
    ensures { UnitsAreOrdered }
{
    bodies_have_graphs();
    rules_leave_no_walk();
    graphs_without_walks_have_ranks();
}
