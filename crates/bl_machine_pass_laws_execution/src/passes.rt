//! A pass as the text of one call makes it: node by node in the order of their numbers, each where its rule is due
//! (`specs/Executes.antt`). Lemmas only (`specs/Passes/Laws.antt`). A point's deed is that of its node
//! (`PointsAreOfNodes`). Where all turns of an instance can be performed, such a pass leaves the store that turns lead
//! to. Its frames are those of the tree that is left, so are its counters where the body hasn't ended, and its copies
//! have what the tree asks for. It traps
//! where turns lead to a trap (`PassesExecute`). A premise is that turns can be performed, with all that is called.

ghost use Rattle.bl_machine_pass_laws_execution.specs.Passes.Laws.{PassesExecute, PointsAreOfNodes};

use crate::fresh::trees_ask;
use bl_graph::graphs_stay_within;
use bl_machine_laws::numbers::turns_wait;
use bl_machine_laws::waiting::{settled_is_quiet, waits_in_part};
use bl_machine_pass_laws::numbers::{counters_linger, trees_stay_placed};
use bl_machine_pass_laws_turns::turns::{due_waits, numbers_pass, trees_stand, turns_keep};

/// The deed of a point is told by its node.
pub fn points_are_of_nodes()
    ensures { PointsAreOfNodes }
{}

/// What turns lead to a pass by rules does.
pub fn passes_execute()
    ensures { PassesExecute }
{
    graphs_stay_within();
    turns_wait();
    settled_is_quiet();
    waits_in_part();
    trees_stay_placed();
    due_waits();
    numbers_pass();
    trees_stand();
    turns_keep();
    trees_ask();
    counters_linger();
}
