//! Tick graphs by the places of their nodes.

ghost use Rattle.bl_tree.specs.Graph.{JoinsNodes};

use crate::List;
use crate::place::Place;

/// What a node of a tick graph stands for (docs/LANGUAGE.md, "Tick graphs").
#[derive(Clone, Copy, PartialEq, Eq, Debug)]
pub enum NodeKind {
    Act,
    Test,
    Pause,
    Resume,
    Start,
    Head,
    Check,
    SurfaceEnd,
    DepthEnd,
    Fork,
    SurfaceJoin,
    DepthJoin,
}

#[derive(Clone, Copy, PartialEq, Eq, Debug)]
pub struct Node {
    pub place: Place,
    pub kind: NodeKind,
}

/// The second node may act after the first in one tick.
#[derive(Clone, Copy, PartialEq, Eq, Debug)]
pub struct Edge {
    pub from: u32,
    pub to: u32,
    /// Whether the first writes what the second, in another branch, reads.
    pub by_data: bool,
}

/// What may act after what in one tick of an activity.
#[derive(Drop)]
pub struct Graph {
    pub nodes: List<Node>,
    pub edges: List<Edge>,
    pub ghost joins_nodes: { JoinsNodes nodes edges },
}
