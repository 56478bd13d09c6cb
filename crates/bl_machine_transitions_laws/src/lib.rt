//! The numbered rules of a pass are the rules of its nodes (`specs/Laws.antt`, `RulesAreListed`): for each body, any
//! order of its blocks, and any numbers of its places. Lemmas only.
#![tactic(auto)]

ghost use Rattle.bl_machine_transitions_laws.specs.Laws.{RulesAreListed};

use bl_machine_pass_laws::keys::nodes_have_keys;
use bl_machine_pass_laws::spots::spots_differ;

/// The list of rules by numbers is what the rules of the nodes tell.
pub fn rules_are_listed()
    ensures { RulesAreListed }
{
    nodes_have_keys();
    spots_differ();
}
