//! What waits after a turn of a pass by registers. Lemmas only (`specs/Waiting.antt`). All that waits after a turn has
//! a greater number. A node that asks for its flag has it iff something waits there; for a resume node, what rested
//! when the tick began tells that. A pass over a body that begins has only the flag of its entry. Under an untested
//! `when` only what rested waits (`StaysDozing` of `bl_machine_pass_laws`). A premise is that trees stand in their
//! body, with its rules and counters (`StaysPlaced`).

ghost use Rattle.bl_machine_pass_laws.specs.Turns.Dozes.{StaysDozing};
ghost use Rattle.bl_machine_pass_laws_turns.specs.Waiting.{BodiesBegin, TurnsKeepFlags, TurnsKeepResumes, TurnsLeaveMore};

use bl_ctree_laws::shrinking::steps_shrink;
use bl_graph::graphs_stay_within;
use bl_graph_nodes::nodes_differ;
use bl_machine_laws::numbers::{sleepers_wait, turns_are_walks, turns_only_wake, turns_wait};
use bl_machine_laws::waiting::{turns_lead_on, waits_in_part};
use bl_machine_pass_laws::numbers::counters_linger;

/// All that waits after a turn has a greater number.
pub fn turns_leave_more()
    ensures { TurnsLeaveMore }
{
    turns_wait();
    turns_lead_on();
    waits_in_part();
    graphs_stay_within();
}

/// Flags tell what waits after a turn.
pub fn turns_keep_flags()
    ensures { TurnsKeepFlags }
{
    steps_shrink();
    turns_are_walks();
    turns_wait();
    turns_lead_on();
    waits_in_part();
    graphs_stay_within();
    nodes_differ();
}

/// What rested tells it where a later tick goes on.
pub fn turns_keep_resumes()
    ensures { TurnsKeepResumes }
{
    steps_shrink();
    turns_are_walks();
    turns_wait();
    sleepers_wait();
    turns_only_wake();
    turns_lead_on();
    waits_in_part();
    graphs_stay_within();
    nodes_differ();
}

/// Under a `when` whose condition is still to be tested nothing waits but what rested.
pub fn trees_stay_dozing()
    ensures { StaysDozing }
{}

/// A pass over a body that begins has the flag of its entry alone.
pub fn bodies_begin()
    ensures { BodiesBegin }
{
    counters_linger();
    graphs_stay_within();
    nodes_differ();
}
