//! Each body has a tick graph, and each graph without a closed walk has an order: numbers for its nodes that rise along every
//! edge (`specs/Orders.antt`). Laws only: `bl_graph` makes the graphs and `bl_cause` the orders. A law of `bl_ctree_laws_traces`
//! says that every activity has an order if no rule fails.
#![tactic(auto)]

ghost use Rattle.bl_cause_laws.specs.Orders.{BodiesHaveGraphs, UnwalkedHaveRanks};

use bl_graph::{edges_are_listed, flows_are_listed, graphs_stay_within};
use bl_graph_nodes::nodes_differ;

/// Each body has a tick graph.
pub fn bodies_have_graphs()
    ensures { BodiesHaveGraphs }
{
    nodes_differ();
    graphs_stay_within();
    edges_are_listed();
    flows_are_listed();
}

/// The converse of what rising numbers do: where no closed walk leads along the edges numbers rise along all of them.
pub fn graphs_without_walks_have_ranks()
    ensures { UnwalkedHaveRanks }
{}
