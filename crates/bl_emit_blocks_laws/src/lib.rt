//! The turns of numbered rules are those of the nodes with these numbers (`specs/Laws.antt`, `BlocksAreNumbered`). So
//! the turns of a body are those of its list of rules (`BodiesAreNumbered`). Lemmas only.
#![tactic(auto)]

ghost use Rattle.bl_emit_blocks_laws.specs.Laws.{BlocksAreNumbered, BodiesAreNumbered};

use bl_machine_transitions_laws::rules_are_listed;

/// The turn of a rule by numbers is that of the rule of a node which tells it.
pub fn blocks_are_numbered()
    ensures { BlocksAreNumbered }
{}

/// The turns of a body are those of its list of rules.
pub fn bodies_are_numbered()
    ensures { BodiesAreNumbered }
{
    blocks_are_numbered();
    rules_are_listed();
}
