//! The first places at which closed walks begin, of control edges and with a data edge.

ghost use Rattle.std.specs.Prelude.{◌≡◌, IfOk, List as Elements, MatchOption, true, ⊤};
ghost use Rattle.bl_cause.specs.Fails.{FailsCycle, FailsTwice, IsFirst, Never};
ghost use Rattle.bl_cause.specs.Walks.{ClosedWalk};
ghost use Rattle.bl_tree.specs.declared.graph.Edge.{Edge as AnEdge};

use crate::edges::controls;
use crate::first::{Found, first_walk, place_of, places_of};
use crate::guess::{Guess, guess_of};
use crate::listed::listed;
use crate::numbers::{Numbers, none_before};
use crate::walked::{edges_of, is_closed};
use bl_graph::Graph;
use bl_tree::NoMemory;
use std::alloc::Global;

/// The first place at which a closed walk of control edges begins.
pub fn twice_at(alloc: Global, graph: &Graph) -> Result<Option<Found>, NoMemory>
    ensures none { IfOk result (λ found. MatchOption found (Never (FailsTwice graph.now)) (λ _. ⊤)) }
    ensures some { IfOk result (λ found. MatchOption found ⊤ (λ walk. IsFirst (FailsTwice graph.now) walk.at walk.also)) }
{
    let edges = controls(alloc, graph.edges.kept().control)?;
    first_walk(alloc, &graph.nodes, &edges, false)
}

/// Whether a closed walk is found without a list of all edges.
pub fn has_walk(alloc: Global, graph: &Graph) -> Result<bool, NoMemory>
    ensures { IfOk result (λ yes. yes ≡ true → ¬ ((walk : Elements AnEdge) → ¬ ClosedWalk graph.now.edges walk)) }
{
    let twice = twice_at(alloc, graph)?;
    if twice.is_some() {
        return Ok(true);
    }
    let cycle = guessed(alloc, graph)?;
    Ok(cycle.is_some())
}

/// The first place at which a closed walk begins with a data edge. Where the guess doesn't hold, all edges are listed.
pub fn first_cycle(alloc: Global, graph: &Graph) -> Result<Option<Found>, NoMemory>
    ensures none { IfOk result (λ found. MatchOption found (Never (FailsCycle graph.now)) (λ _. ⊤)) }
    ensures some { IfOk result (λ found. MatchOption found ⊤ (λ walk. IsFirst (FailsCycle graph.now) walk.at walk.also)) }
{
    match guessed(alloc, graph)? {
        Some(found) => Ok(Some(found)),
        None => first_listed(alloc, graph),
    }
}

fn first_listed(alloc: Global, graph: &Graph) -> Result<Option<Found>, NoMemory>
    ensures none { IfOk result (λ found. MatchOption found (Never (FailsCycle graph.now)) (λ _. ⊤)) }
    ensures some { IfOk result (λ found. MatchOption found ⊤ (λ walk. IsFirst (FailsCycle graph.now) walk.at walk.also)) }
{
    let edges = listed(alloc, graph.edges.kept())?;
    first_walk(alloc, &graph.nodes, &edges, true)
}

/// The guess, where it holds.
fn guessed(alloc: Global, graph: &Graph) -> Result<Option<Found>, NoMemory>
    ensures { IfOk result (λ found. MatchOption found ⊤ (λ walk. IsFirst (FailsCycle graph.now) walk.at walk.also)) }
{
    match guess_of(alloc, graph)? {
        Some(guess) => checked(alloc, graph, &guess),
        None => Ok(None),
    }
}

/// The guessed walk, if it is a closed walk, and the numbers show that none begins earlier.
fn checked(alloc: Global, graph: &Graph, guess: &Guess) -> Result<Option<Found>, NoMemory>
    ensures { IfOk result (λ found. MatchOption found ⊤ (λ walk. IsFirst (FailsCycle graph.now) walk.at walk.also)) }
{
    let kept = graph.edges.kept();
    let first = guess.first;
    let at = place_of(&graph.nodes, first.edge.from);
    let numbers = Numbers::of(alloc, &graph.nodes, at, &guess.numbers)?;
    let none = none_before(alloc, &graph.nodes, kept, at, &numbers)?;
    let holds = first.edge.by_data & is_closed(kept, first, &guess.rest) & none;
    if holds {
        let rest = edges_of(alloc, &guess.rest)?;
        let also = places_of(alloc, &graph.nodes, &rest)?;
        Ok(Some(Found { at, also }))
    } else {
        Ok(None)
    }
}
