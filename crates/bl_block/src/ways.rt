//! What the control edges of a tick graph tell of each node: the one node that may follow it, and the one that leads to it.

ghost use Rattle.std.specs.Prelude.{◌≡◌, ◌<◌, length, replicate, IfOk};
ghost use Rattle.bl_block.specs.declared.ways.Way.TheVariants.{Nowhere};
ghost use Rattle.bl_block.specs.inner.Ways.{follows, goes_straight, is_join, leads_on, met, noted, noted_back, noted_on, one_at, ways_of};
ghost use Rattle.bl_tree.specs.Graph.{JoinsNodes};

use bl_graph::Graph;
use bl_tree::graph::{Edge, Node, NodeKind};
use bl_tree::{List, NoMemory};
use std::alloc::Global;

/// The nodes at the other ends of some edges.
#[derive(Clone, Copy, PartialEq, Eq, Debug)]
pub enum Way {
    Nowhere,
    One(u32),
    Several,
}

/// For each node of a tick graph where its control edges lead and from where they come.
#[derive(Drop)]
pub struct Ways {
    /// Where the edges lead that lead out of it and not to a join; of an act or the head of a loop alone.
    pub on: List<Way>,
    /// From where edges lead to it.
    pub from: List<Way>,
}

impl Ways {
    /// Those of a tick graph.
    pub fn of(alloc: Global, graph: &Graph) -> Result<Ways, NoMemory>
        ensures { IfOk result (λ ways. ways ≡ ways_of graph.now.nodes graph.now.edges) }
    {
        let control = graph.edges.kept().control;
        let on = onward(alloc, &graph.nodes, control)?;
        let from = back(alloc, &graph.nodes, control)?;
        Ok(Ways { on, from })
    }

    /// Whether the second node could follow the first in one block.
    pub fn follows(&self, first: u32, second: u32) -> bool
        ensures { result ≡ follows self.now first second }
    {
        second != 0 && one_at(&self.on, first, second) && one_at(&self.from, second, first)
    }
}

/// Whether the way of the node at the position is to this one alone.
fn one_at(ways: &[Way], at: u32, node: u32) -> bool
    ensures { result ≡ one_at ways.now at node }
{
    match ways.get(at as usize).copied().unwrap_or(Way::Nowhere) {
        Way::One(other) => other == node,
        _ => false,
    }
}

/// Where the edges lead from each act and each head of a loop, joins aside.
fn onward(alloc: Global, nodes: &[Node], edges: &[Edge]) -> Result<List<Way>, NoMemory>
    requires { JoinsNodes nodes.now edges.now }
    ensures { IfOk result (λ ways. ways ≡ noted_on nodes.now edges.now (replicate (length nodes.now) Nowhere)) }
{
    let mut ways = List::from_vec(vec![in alloc; Way::Nowhere; nodes.len()]?);
    for edge in edges {
        if leads_on(nodes, *edge) {
            note(&mut ways, edge.from, edge.to);
        }
    }
    Ok(ways)
}

/// From where edges lead to each node.
fn back(alloc: Global, nodes: &[Node], edges: &[Edge]) -> Result<List<Way>, NoMemory>
    requires { JoinsNodes nodes.now edges.now }
    ensures { IfOk result (λ ways. ways ≡ noted_back edges.now (replicate (length nodes.now) Nowhere)) }
{
    let mut ways = List::from_vec(vec![in alloc; Way::Nowhere; nodes.len()]?);
    for edge in edges {
        if !edge.by_data {
            note(&mut ways, edge.to, edge.from);
        }
    }
    Ok(ways)
}

/// Whether it is a control edge from an act or a head of a loop, and not to a join.
fn leads_on(nodes: &[Node], edge: Edge) -> bool
    ensures { result ≡ leads_on nodes.now edge }
{
    !edge.by_data && goes_straight(nodes, edge.from) && !is_join(nodes, edge.to)
}

/// Whether the node is an act or the head of a loop.
fn goes_straight(nodes: &[Node], at: u32) -> bool
    ensures { result ≡ goes_straight nodes.now at }
{
    match nodes.get(at as usize) {
        Some(node) => matches!(node.kind, NodeKind::Act | NodeKind::Head),
        None => false,
    }
}

/// Whether the node is a join of a `cobegin`.
fn is_join(nodes: &[Node], at: u32) -> bool
    ensures { result ≡ is_join nodes.now at }
{
    match nodes.get(at as usize) {
        Some(node) => matches!(node.kind, NodeKind::SurfaceJoin | NodeKind::DepthJoin),
        None => false,
    }
}

/// Notes one node more on the way of the node at the position.
fn note(ways: &mut List<Way>, at: u32, node: u32)
    requires { at < length ways.old }
    ensures { ways.new ≡ noted ways.old at node }
{
    let way = ways[at as usize];
    ways.set(at as usize, met(way, node));
}

/// One node more. The same twice is one.
fn met(way: Way, node: u32) -> Way
    ensures { result ≡ met way node }
{
    match way {
        Way::Nowhere => Way::One(node),
        Way::One(other) => { if other == node { way } else { Way::Several } }
        Way::Several => Way::Several,
    }
}
