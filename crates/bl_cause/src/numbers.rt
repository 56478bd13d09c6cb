//! Numbers of nodes that show that no closed walk begins with a data edge at an earlier place.

ghost use Rattle.std.specs.Prelude.{◌≡◌, ◌<◌, ◌≤◌, ◌+◌, ◌++◌, Contains, IfOk, false, length, true, ℕ};
ghost use Rattle.bl_cause.specs.Fails.{place_at};
ghost use Rattle.bl_cause.specs.inner.Before.{Fits, NoneBefore};
ghost use Rattle.bl_graph.specs.Accesses.{flows};
ghost use Rattle.bl_tree.specs.Graph.{JoinsNodes};
ghost use Rattle.bl_tree.specs.Rules.{is_before};
ghost use Rattle.bl_tree.specs.declared.graph.Edge.{Edge as AnEdge};

use crate::first::place_of;
use crate::rising::{data_rises, number_in, rises};
use bl_graph::Kept;
use bl_tree::graph::{Edge, Node};
use bl_tree::{List, NoMemory, Place};
use std::alloc::Global;

/// Along an edge they rise from the low number of its first node to the high one of its second. High numbers never fall
/// then, and rise along data edges from nodes at earlier places.
#[derive(Drop)]
pub struct Numbers {
    /// For control edges, and for data edges.
    pub lows: List<u32>,
    pub data_lows: List<u32>,
    pub highs: List<u32>,
}

impl Numbers {
    /// Made of numbers that never fall along an edge.
    pub fn of(
        alloc: Global,
        nodes: &[Node],
        at: Place,
        numbers: &[usize],
    ) -> Result<Numbers, NoMemory> {
        let mut made = Numbers {
            lows: List::new(alloc),
            data_lows: List::new(alloc),
            highs: List::new(alloc),
        };
        for (k, node) in nodes.iter().enumerate() {
            let number = number_at(numbers, k);
            let high = number.saturating_add(1);
            made.lows.push(number)?;
            let data_low = if node.place.is_before(at) {
                high
            } else {
                number
            };
            made.data_lows.push(data_low)?;
            made.highs.push(high)?;
        }
        Ok(made)
    }
}

/// The number at a position, or the greatest where it doesn't fit.
fn number_at(numbers: &[usize], at: usize) -> u32 {
    match numbers.get(at) {
        Some(number) => match u32::try_from(*number) {
            Ok(number) => number,
            Err(_) => u32::MAX,
        },
        None => 0,
    }
}

/// Whether the numbers show that no closed walk begins with a data edge at an earlier place.
pub fn none_before(
    alloc: Global,
    nodes: &[Node],
    kept: Kept<'_>,
    at: Place,
    numbers: &Numbers,
) -> Result<bool, NoMemory>
    requires { JoinsNodes nodes.now (kept.control.now ++ flows kept.accesses.now) }
    ensures { IfOk result (λ yes. yes ≡ true → NoneBefore nodes.now (kept.entry.control.now ++ flows kept.entry.accesses.now) at) }
{
    let by_data = data_rises(alloc, kept.accesses, &numbers.data_lows, &numbers.highs)?;
    let control = rises(kept.control, &numbers.lows, &numbers.highs);
    Ok(by_data & control & are_control(kept.control) & all_fit(nodes, at, numbers))
}

/// Whether none is by data.
fn are_control(edges: &[Edge]) -> bool
    ensures { result ≡ true → (edge : AnEdge) → Contains edges.now edge → edge.by_data ≡ false }
{
    let mut yes = true;
    for edge in edges {
        yes &= !edge.by_data;
    }
    yes
}

/// Whether the numbers of each node fit together.
fn all_fit(nodes: &[Node], at: Place, numbers: &Numbers) -> bool
    ensures { result ≡ true → (k : ℕ) → k < length nodes.now → Fits (is_before (place_at nodes.now k) at) numbers.now k }
{
    let Ok(count) = u32::try_from(nodes.len()) else {
        return false;
    };
    let mut yes = true;
    for k in 0..count {
        yes &= fits(place_of(nodes, k), at, numbers, k);
    }
    yes
}

/// A high number is at most one more than the low ones, and no more than that for data edges at an earlier place.
fn fits(place: Place, at: Place, numbers: &Numbers, node: u32) -> bool
    ensures { result ≡ true → Fits (is_before place at) numbers.now node }
{
    let high = number_in(&numbers.highs, node);
    let low = number_in(&numbers.lows, node);
    let data_low = number_in(&numbers.data_lows, node);
    if place.is_before(at) {
        is_next(low, high) & (high <= data_low)
    } else {
        is_next(low, high) & is_next(data_low, high)
    }
}

/// Whether the second number is at most one more than the first.
fn is_next(low: u32, high: u32) -> bool
    ensures { result ≡ true → high ≤ low + 1 }
{
    high as u64 <= low as u64 + 1
}
