//! The first place at which a closed walk begins with an edge of one kind.

ghost use Rattle.std.specs.Prelude.{◌≡◌, ◌<◌, [], MatchOption, length, IfOk, ⊤};
ghost use Rattle.bl_cause.specs.Fails.{BeginsWalk, IsFirst, Never, place_at, places_of};
ghost use Rattle.bl_cause.specs.inner.Found.{BeginsFrom, FirstBegins, IsLeast, NoneBegins, NoWalkFrom};
ghost use Rattle.bl_cause.specs.inner.Lists.{RowsWithin, Within, level_edges};

use crate::edges::{count_of, leaving};
use crate::finishing::sorted;
use crate::numbering::numbers;
use crate::way_back::way_back;
use bl_tree::graph::{Edge, Node};
use bl_tree::{List, NoMemory, Place};
use std::alloc::Global;

/// Where a closed walk begins, and the places of the nodes that it passes then.
#[derive(Drop)]
pub struct Found {
    pub at: Place,
    pub also: List<Place>,
}

/// The first place at which a closed walk begins with an edge that is by data, or isn't, as told.
pub fn first_walk(
    alloc: Global,
    nodes: &[Node],
    edges: &[Edge],
    by_data: bool,
) -> Result<Option<Found>, NoMemory>
    ensures none { IfOk result (λ found. MatchOption found (Never (BeginsWalk nodes.now edges.now by_data)) (λ _. ⊤)) }
    ensures some { IfOk result (λ found. MatchOption found ⊤ (λ walk. IsFirst (BeginsWalk nodes.now edges.now by_data) walk.at walk.also)) }
{
    let count = count_of(edges);
    let order = sorted(alloc, count, edges)?;
    let numbers = numbers(alloc, count, edges, &order)?;
    let left = level_edges(alloc, edges, &numbers, by_data)?;
    let rows = leaving(alloc, count, edges)?;
    first_of(alloc, nodes, &rows, left)
}

/// The edges of the kind at whose ends the numbers are the same.
fn level_edges(
    alloc: Global,
    edges: &[Edge],
    numbers: &[usize],
    by_data: bool,
) -> Result<Vec<Edge>, NoMemory>
    requires { Within (length numbers.now) edges.now }
    ensures { IfOk result (λ left. left.items ≡ level_edges numbers.now by_data edges.now) }
{
    let mut left = List::new(alloc);
    for edge in edges {
        if edge.by_data == by_data && numbers[edge.from as usize] == numbers[edge.to as usize] {
            left.push(*edge)?;
        }
    }
    Ok(left.into_vec())
}

/// The first place at which a closed walk begins with one of the edges that are left.
fn first_of(
    alloc: Global,
    nodes: &[Node],
    rows: &[List<Edge>],
    left: Vec<Edge>,
) -> Result<Option<Found>, NoMemory>
    requires rows { RowsWithin (length rows.now) rows.now }
    requires left { Within (length rows.now) left.items }
    ensures none { IfOk result (λ found. MatchOption found (NoneBegins nodes.now rows.now left.items) (λ _. ⊤)) }
    ensures some { IfOk result (λ found. MatchOption found ⊤ (λ walk. FirstBegins nodes.now rows.now left.items walk.at walk.also)) }
{
    let mut left = left;
    while let Some(k) = least(nodes, &left) {
        let edge = left.remove(k);
        if let Some(found) = walk_from(alloc, nodes, rows, edge)? {
            return Ok(Some(found));
        }
    }
    Ok(None)
}

/// The position of the edge that begins at the least place.
fn least(nodes: &[Node], edges: &[Edge]) -> Option<usize>
    ensures none { MatchOption result (edges.now ≡ []) (λ _. ⊤) }
    ensures some { MatchOption result ⊤ (λ k. k < length edges.now) }
    ensures least { MatchOption result ⊤ (IsLeast nodes.now edges.now) }
{
    if edges.is_empty() {
        return None;
    }
    let mut best = 0;
    for (k, edge) in edges.iter().enumerate() {
        if place_of(nodes, edge.from).is_before(place_of(nodes, edges[best].from)) {
            best = k;
        }
    }
    Some(best)
}

/// The closed walk that begins with the edge, if there is one.
fn walk_from(
    alloc: Global,
    nodes: &[Node],
    rows: &[List<Edge>],
    edge: Edge,
) -> Result<Option<Found>, NoMemory>
    requires rows { RowsWithin (length rows.now) rows.now }
    requires ends { edge.to < length rows.now }
    ensures none { IfOk result (λ found. MatchOption found (NoWalkFrom rows.now edge) (λ _. ⊤)) }
    ensures some { IfOk result (λ found. MatchOption found ⊤ (λ walk. BeginsFrom nodes.now rows.now edge walk.at walk.also)) }
    ensures at { IfOk result (λ found. MatchOption found ⊤ (λ walk. walk.at ≡ place_at nodes.now edge.from)) }
{
    match way_back(alloc, rows, edge)? {
        None => Ok(None),
        Some(rest) => {
            let also = places_of(alloc, nodes, &rest)?;
            Ok(Some(Found {
                at: place_of(nodes, edge.from),
                also,
            }))
        }
    }
}

/// The places of the nodes at which the edges begin.
pub fn places_of(alloc: Global, nodes: &[Node], walk: &[Edge]) -> Result<List<Place>, NoMemory>
    ensures { IfOk result (λ places. places ≡ places_of nodes.now walk.now) }
{
    let mut places = List::new(alloc);
    for edge in walk {
        places.push(place_of(nodes, edge.from))?;
    }
    Ok(places)
}

/// The place of a node. One that isn't there has none, which 0-0 stands for.
pub fn place_of(nodes: &[Node], node: u32) -> Place
    ensures { result ≡ place_at nodes.now node }
{
    match nodes.get(node as usize) {
        Some(node) => node.place,
        None => Place { start: 0, end: 0 },
    }
}
