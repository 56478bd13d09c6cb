//! The tick graph of an activity.

ghost use Rattle.std.specs.Prelude.{◌≡◌, ◌<◌, length, map, slice_get, IfOk, Some};
ghost use Rattle.bl_effects.specs.Table.{TableTellsEffects};
ghost use Rattle.bl_graph.specs.Graph.{IsTickGraph};
ghost use Rattle.bl_graph_nodes.specs.Plain.{plain_body};
ghost use Rattle.bl_tree.specs.declared.tree.Unit.{Unit as UnitDef};

use crate::accesses::DataEdges;
use crate::build::block;
use crate::flow::Flow;
use crate::part::Links;
use crate::tick_graph::{Edges, Graph};
use bl_effects::Effects;
use bl_graph_nodes::nodes_differ;
use bl_tree::graph::Node;
use bl_tree::tree::Stmt;
use bl_tree::{List, NoMemory, Program};
use std::alloc::Global;

/// The tick graph of the unit at the position. Fails only for want of memory.
pub fn graph_of(
    alloc: Global,
    program: &Program,
    effects: &Effects,
    unit: u32,
) -> Result<Graph, NoMemory>
    requires is_there { unit < length program.now.units }
    requires effects { TableTellsEffects effects.now program.now.units }
    ensures { IfOk result (λ graph. (of : UnitDef) → slice_get program.now.units unit ≡ Some of
        → IsTickGraph (plain_body of.body) graph.nodes graph.edges) }
{
    graph_of_body(alloc, &program.units[unit as usize].body)
}

/// The tick graph of a unit with this body. Fails only for want of memory.
pub fn graph_of_body(alloc: Global, body: &[Stmt]) -> Result<Graph, NoMemory>
    ensures { IfOk result (λ graph. IsTickGraph (plain_body body.now) graph.nodes graph.edges) }
{
    nodes_differ();
    let mut links = Links {
        control: List::new(alloc),
        by_data: DataEdges::new(alloc),
    };
    let made = block(alloc, body, 0, &mut links)?;
    let nodes = shown_nodes(alloc, &made.flows)?;
    let edges = Edges::new(links.control, links.by_data);
    Ok(Graph { nodes, edges })
}

/// What the graph shows of the nodes.
fn shown_nodes(alloc: Global, flows: &[Flow]) -> Result<List<Node>, NoMemory>
    ensures { IfOk result (λ nodes. nodes ≡ map (λ flow. flow.node) flows.now) }
{
    let mut nodes = List::new(alloc);
    for flow in flows {
        nodes.push(flow.node)?;
    }
    Ok(nodes)
}
