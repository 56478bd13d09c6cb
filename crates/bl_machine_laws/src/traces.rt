//! The trace of a machine that makes one pass a tick. Lemmas only. The positions of nodes in the blocks of a machine
//! rise along all edges of the tick graphs and differ between the nodes of a body. So a pass can go by them, and such
//! numbers exist for each machine of an accepted program (`specs/Traces/Positions.antt`). A run of one pass a tick has
//! a trace that the semantics allows, whichever passes it makes. In an accepted program such a run exists over all rows
//! of inputs, in the machine's own order, and the semantics allows only its trace (`specs/Traces/Runs.antt`,
//! `MachinesHaveOneTrace`).

ghost use Rattle.bl_machine_laws.specs.Traces.Positions.{MachinesGiveOrders};
ghost use Rattle.bl_machine_laws.specs.Traces.Runs.{MachinesHaveOneTrace, RunsAreMeant};

use crate::passes::{graphs_give_orders, ticks_are_passes};
use bl_ctree::laws::{lists_of_steps, trees_stay_left};
use bl_ctree_laws::bridge::{answers_are_plain, steps_are_plain, waking_is_plain};
use bl_ctree_laws::runs::reached_trees_are_armed;
use bl_ctree_laws::shrinking::acting_is_open;
use bl_ctree_laws_confluence::deeds::accepted_programs_are_orderly;
use bl_ctree_laws_confluence::independent::accepted_programs_have_at_most_one_trace;
use bl_ctree_laws_traces::ready::{accepted_programs_are_ordered, reached_lowest_may_act};
use bl_graph::graphs_stay_within;

/// Positions in the blocks of a machine rise along all edges of the tick graphs and tell the nodes of each body apart.
pub fn machines_give_orders()
    ensures { MachinesGiveOrders }
{
    graphs_stay_within();
    graphs_give_orders();
    accepted_programs_are_orderly();
}

/// By such numbers there is one run of passes over all rows, and it shows what the parallel meaning allows.
pub fn runs_of_passes_are_meant()
    ensures { RunsAreMeant }
{
    reached_lowest_may_act();
    steps_are_plain();
    acting_is_open();
    answers_are_plain();
    trees_stay_left();
    reached_trees_are_armed();
    lists_of_steps();
    waking_is_plain();
    accepted_programs_are_orderly();
    ticks_are_passes();
    accepted_programs_have_at_most_one_trace();
}

/// So it is of the machine of each accepted program.
pub fn machines_have_one_trace()
    ensures { MachinesHaveOneTrace }
{
    accepted_programs_are_ordered();
    machines_give_orders();
    runs_of_passes_are_meant();
}
