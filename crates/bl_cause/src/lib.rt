//! The rules Twice and Cycle (docs/LANGUAGE.md, "Rules") of one tick graph, and what an accepted program is. `Accepted` is a
//! program that passes all rules, with its schedule: the tick graphs of its activities, and an order for each
//! (`specs/Accepted.antt`, `IsAccepted`). `Accepted::effects` makes the table of its effects for a caller that asks for one.
//! `bl_cause_trees` judges the two rules for all activities of a program.
//!
//! `twice` and `ordered` judge one tick graph. `twice` looks for a closed walk of control edges, and `ordered` for one that
//! begins with a data edge. Each reports the first place where such a walk begins, with the places that one such walk passes.
//! If there is none, `ordered` returns numbers that rise along every edge (`specs/Fails.antt`, `FailsTwice`, `FailsCycle`;
//! `specs/Ranks.antt`, `Ranks`). An edge from a node to itself is a closed walk without further places. `acyclic_order`
//! returns such numbers iff the graph has no closed walk. `sweep` orders the nodes as the source does, as far as edges allow
//! it, and one pass over control edges and accesses (`rising`) checks that the numbers rise along every edge. `finishing` is
//! called only if they don't.
//!
//! How the first place is found: `finishing` lists each node before the nodes that it leads to, unless a closed walk joins
//! them. `numbering` takes the nodes in that order. It gives one number to all nodes that lead to a node and have no number
//! yet. The numbers never fall along an edge, so both ends of an edge on a closed walk have the same number. `first` tries
//! the edges whose ends have the same number, in the order of their places. `way_back` searches for a walk from the end of
//! such an edge to its beginning. It is not proved that equal numbers mean the same strongly connected component; only the
//! running time depends on it.
//!
//! For rule Cycle this isn't done over the list of all edges, which may be long. `guess` does the same through accesses
//! (`through`), and finds a walk and numbers. `walked` checks that the walk is one, and `numbers` that none begins earlier. Only
//! if that fails, the edges are listed (`listed`). That the guess holds is tested and not proved; only the running time
//! depends on it.
//!
//! Laws: a graph with numbers that rise along every edge has no closed walk; a closed walk can begin with any of its edges;
//! a closed walk of control edges has no data edge; a graph that passes both rules has no closed walk. The position of an
//! activity gives its tick graph and its order.
#![tactic(auto)]

ghost use Rattle.std.specs.Prelude.{List as Elements, OnOk, IfOk, IfErr};
ghost use Rattle.bl_tree.specs.declared.graph.Edge.{Edge as AnEdge};
ghost use Rattle.bl_tree.specs.declared.rule.Rule.TheVariants.{Twice, Cycle};
ghost use Rattle.bl_cause.specs.Fails.{FailsTwice, FailsCycle, Never, TellsFirst};
ghost use Rattle.bl_cause.specs.Ranks.{Ranks};
ghost use Rattle.bl_cause.specs.Walks.{ClosedWalk};

mod accepted;
mod edges;
mod finishing;
mod first;
mod guess;
pub mod laws;
mod listed;
mod numbering;
mod numbers;
mod order;
mod rising;
mod schedule;
mod sweep;
mod through;
mod walked;
mod walks;
mod way_back;

use crate::listed::listed;
use crate::order::order_of;
use crate::walks::{first_cycle, twice_at};
pub use accepted::Accepted;
use bl_graph::Graph;
use bl_tree::{NoMemory, Refusal, Rule};
pub use order::{Order, acyclic_order};
pub use schedule::Schedule;
use std::alloc::Global;

/// Judges rule Twice for the graph. The walk that the refusal tells is one of many.
pub fn twice(alloc: Global, graph: &Graph) -> Result<(), Refusal>
    ensures passes { OnOk result (Never (FailsTwice graph.now)) }
    ensures refused { IfErr result (TellsFirst Twice (FailsTwice graph.now)) }
{
    match twice_at(alloc, graph) {
        Ok(None) => Ok(()),
        Ok(Some(found)) => Err(Refusal::Rule {
            rule: Rule::Twice,
            place: found.at,
            also: found.also,
        }),
        Err(NoMemory) => Err(Refusal::NoMemory),
    }
}

/// Judges rule Cycle for a graph for which rule Twice doesn't fail. Where Cycle doesn't either, it gives an order.
pub fn ordered(alloc: Global, graph: &Graph) -> Result<Order, Refusal>
    requires { Never (FailsTwice graph.now) }
    ensures passes { OnOk result (Never (FailsCycle graph.now)) }
    ensures ranks { IfOk result (λ order. Ranks graph.now.edges order.ranks) }
    ensures refused { IfErr result (TellsFirst Cycle (FailsCycle graph.now)) }
{
    match first_cycle(alloc, graph) {
        Ok(None) => in_order(alloc, graph),
        Ok(Some(found)) => Err(Refusal::Rule {
            rule: Rule::Cycle,
            place: found.at,
            also: found.also,
        }),
        Err(NoMemory) => Err(Refusal::NoMemory),
    }
}

/// An order for a graph without closed walks.
fn listed_order(alloc: Global, graph: &Graph) -> Result<Order, NoMemory>
    requires { (walk : Elements AnEdge) → ¬ ClosedWalk graph.now.edges walk }
    ensures { IfOk result (λ order. Ranks graph.now.edges order.ranks) }
{
    let edges = listed(alloc, graph.edges.kept())?;
    order_of(alloc, &edges)
}

/// The same, where want of memory is a refusal.
fn in_order(alloc: Global, graph: &Graph) -> Result<Order, Refusal>
    requires { (walk : Elements AnEdge) → ¬ ClosedWalk graph.now.edges walk }
    ensures ranks { IfOk result (λ order. Ranks graph.now.edges order.ranks) }
    ensures refused { IfErr result (TellsFirst Cycle (FailsCycle graph.now)) }
{
    match listed_order(alloc, graph) {
        Ok(order) => Ok(order),
        Err(NoMemory) => Err(Refusal::NoMemory),
    }
}
