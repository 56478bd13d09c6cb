//! One body, judged by its tick graph.

ghost use Rattle.std.specs.Prelude.{◌≡◌, IfErr, IfOk, List as Elements};
ghost use Rattle.bl_cause.specs.Activities.{IsOrderOf};
ghost use Rattle.bl_cause.specs.Fails.{FailsCycle, FailsTwice, Never, TellsFirst};
ghost use Rattle.bl_cause_trees.specs.inner.Judging.{IsCauseInBody};
ghost use Rattle.bl_graph.specs.Graph.{IsTickGraph};
ghost use Rattle.bl_graph_nodes.specs.Plain.{plain_body};
ghost use Rattle.bl_tree.specs.declared.rule.Rule.TheVariants.{Cycle};
ghost use Rattle.bl_tree.specs.declared.tree.Stmt.{Stmt as AStmt};

use bl_cause::{Order, acyclic_order, ordered, twice};
use bl_graph::{Graph, graph_of_body};
use bl_tree::tree::Stmt;
use bl_tree::{NoMemory, Refusal};
use std::alloc::Global;

/// A tick graph, and an order for it.
#[derive(Drop)]
pub struct Ordered {
    pub graph: Graph,
    pub order: Order,
}

/// The tick graph of the body and an order for it, where neither rule fails. A graph for which one fails is let go.
pub fn ordered_body(alloc: Global, body: &[Stmt]) -> Result<Ordered, Refusal>
    ensures graph { IfOk result (λ made. IsTickGraph (plain_body body.now) made.graph.nodes made.graph.edges) }
    ensures order { IfOk result (λ made. IsOrderOf made.graph made.order) }
    ensures cause { IfErr result (IsCauseInBody body.now) }
{
    let graph = match graph_of_body(alloc, body) {
        Ok(graph) => graph,
        Err(NoMemory) => return Err(Refusal::NoMemory),
    };
    match acyclic_order(alloc, &graph) {
        Ok(Some(order)) => Ok(Ordered { graph, order }),
        Ok(None) => by_rules(alloc, graph),
        Err(NoMemory) => Err(Refusal::NoMemory),
    }
}

/// Judges a graph by the two rules.
fn by_rules(alloc: Global, graph: Graph) -> Result<Ordered, Refusal>
    ensures same { IfOk result (λ made. made.graph ≡ graph) }
    ensures order { IfOk result (λ made. IsOrderOf made.graph made.order) }
    ensures cause { (body : Elements AStmt) → IsTickGraph (plain_body body) graph.nodes graph.edges → IfErr result (IsCauseInBody body) }
{
    match twice(alloc, &graph) {
        Ok(()) => behind_twice(alloc, graph),
        Err(refusal) => Err(refusal),
    }
}

/// Judges a graph for which rule Twice doesn't fail by rule Cycle.
fn behind_twice(alloc: Global, graph: Graph) -> Result<Ordered, Refusal>
    requires { Never (FailsTwice graph) }
    ensures same { IfOk result (λ made. made.graph ≡ graph) }
    ensures order { IfOk result (λ made. IsOrderOf made.graph made.order) }
    ensures refused { IfErr result (TellsFirst Cycle (FailsCycle graph)) }
{
    match ordered(alloc, &graph) {
        Ok(order) => Ok(Ordered { graph, order }),
        Err(refusal) => Err(refusal),
    }
}
