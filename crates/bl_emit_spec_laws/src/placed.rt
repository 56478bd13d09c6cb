//! The blocks of an activity's C function stand in the order of their nodes' numbers, one for each rule of the body. A
//! node behind another one in its block waits by a flag that only that one sets (`specs/Placed.antt`,
//! `BlocksArePlaced`). Lemmas only.

ghost use Rattle.bl_emit_spec_laws.specs.Placed.{BlocksArePlaced};

use bl_ctree_laws_confluence::deeds::accepted_programs_are_orderly;
use bl_graph::graphs_stay_within;
use bl_machine_pass_laws::flags::{flags_are_asked, flags_are_reached, flags_come_from_before};
use bl_machine_pass_laws::keys::nodes_have_keys;
use bl_machine_pass_laws::numbers::trees_stay_placed;
use bl_machine_transitions_laws::rules_are_listed;

/// Blocks stand in the order of the numbers of their nodes.
pub fn blocks_are_placed()
    ensures { BlocksArePlaced }
{
    accepted_programs_are_orderly();
    flags_are_asked();
    flags_are_reached();
    flags_come_from_before();
    graphs_stay_within();
    nodes_have_keys();
    trees_stay_placed();
    rules_are_listed();
}
