//! Whether numbers rise along edges: the low number where an edge begins is less than the high one where it ends.

ghost use Rattle.std.specs.Prelude.{◌≡◌, false, true, slice_index, IfOk};
ghost use Rattle.bl_cause.specs.inner.Limits.{Rise, is_above, limit_at, limit_with};
ghost use Rattle.bl_graph.specs.Accesses.{flows};

use bl_graph::Access;
use bl_tree::graph::Edge;
use bl_tree::{List, NoMemory};
use std::alloc::Global;

/// The number of a node. A node that isn't there has 0.
pub fn number_in(numbers: &[u32], node: u32) -> u32
    ensures { result ≡ slice_index numbers.now node }
{
    numbers.get(node as usize).copied().unwrap_or(0)
}

/// Whether they rise along every edge.
pub fn rises(edges: &[Edge], lows: &[u32], highs: &[u32]) -> bool
    ensures rise { result ≡ true → Rise edges.now lows.now highs.now }
    ensures fall { result ≡ false → ¬ Rise edges.now lows.now highs.now }
{
    for edge in edges {
        if number_in(lows, edge.from) >= number_in(highs, edge.to) {
            return false;
        }
    }
    true
}

/// Whether they rise along every data edge. It is asked once for each access.
pub fn data_rises(
    alloc: Global,
    accesses: &[Access],
    lows: &[u32],
    highs: &[u32],
) -> Result<bool, NoMemory>
    ensures { IfOk result (λ yes. yes ≡ true → Rise (flows accesses.now) lows.now highs.now) }
{
    let mut limits = List::new(alloc);
    let mut yes = true;
    for access in accesses {
        let limit = limit_with(lows, &limits, *access);
        yes &= is_above(highs, &limits, *access);
        limits.push(limit)?;
    }
    Ok(yes)
}

/// The least number above the low ones of all writers of an access, by these numbers of the accesses before it.
fn limit_with(lows: &[u32], limits: &[usize], access: Access) -> usize
    ensures { result ≡ limit_with lows.now limits.now access }
{
    match access {
        Access::Write(node, before) => {
            limit_at(limits, before).max(number_in(lows, node) as usize + 1)
        }
        Access::Read(_, _) => 0,
    }
}

/// Whether the high number of a node that reads is above the low ones of all writers.
fn is_above(highs: &[u32], limits: &[usize], access: Access) -> bool
    ensures { result ≡ is_above highs.now limits.now access }
{
    match access {
        Access::Write(_, _) => true,
        Access::Read(node, from) => limit_at(limits, Some(from)) <= number_in(highs, node) as usize,
    }
}

/// The limit of the access at a position. Where there is none, each number is above.
fn limit_at(limits: &[usize], position: Option<u32>) -> usize
    ensures { result ≡ limit_at limits.now position }
{
    match position {
        Some(k) => limits.get(k as usize).copied().unwrap_or(0),
        None => 0,
    }
}
