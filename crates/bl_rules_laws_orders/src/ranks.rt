//! The numbers by the orders of an accepted program, as the contract of a function that does nothing.

ghost use Rattle.bl_rules_laws_orders.specs.Ranks.{OrdersRise};

use bl_cause::laws::graphs_are_found;
use bl_ctree_laws_confluence::deeds::accepted_programs_are_orderly;
use bl_graph::graphs_stay_within;
use bl_machine_pass_laws::keys::nodes_have_keys;

/// The numbers that the orders of an accepted program give to nodes rise along every edge, in each instance.
pub fn orders_rise()
    ensures { OrdersRise }
{
    accepted_programs_are_orderly();
    graphs_are_found();
    graphs_stay_within();
    nodes_have_keys();
}
