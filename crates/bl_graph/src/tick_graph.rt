//! What is kept of a tick graph.

ghost use Rattle.bl_tree.specs.Graph.{JoinsNodes};

use crate::accesses::{Access, DataEdges};
use bl_tree::List;
use bl_tree::graph::{Edge, Node};
use std::marker::Model;

/// Control edges and data edges. In contracts they are the list of all edges.
#[derive(Drop)]
pub struct Edges {
    control: List<Edge>,
    by_data: DataEdges,
}

impl Model for Edges {
    ghost use Rattle.std.specs.Prelude.{List, ◌++◌};
    ghost use Rattle.bl_tree.specs.declared.graph.Edge.{Edge};

    ghost Value = { List Edge };

    ghost view = { λ edges. edges.control ++ edges.by_data };
}

/// What may act after what in one tick of an activity.
#[derive(Drop)]
pub struct Graph {
    pub nodes: List<Node>,
    pub edges: Edges,
    pub ghost joins_nodes: { JoinsNodes nodes edges },
}

/// The edges of a graph as they are kept: some as they are, and those that the accesses make.
#[derive(Clone, Copy)]
pub struct Kept<'a> {
    pub control: &'a [Edge],
    pub accesses: &'a [Access],
}

impl Edges {
    ghost use Rattle.std.specs.Prelude.{◌≡◌, ◌++◌};
    ghost use Rattle.bl_graph.specs.Accesses.{flows};

    /// The edges of both kinds.
    pub fn new(control: List<Edge>, by_data: DataEdges) -> Edges
        ensures { result ≡ control ++ by_data }
    {
        Edges { control, by_data }
    }

    /// As they are kept.
    pub fn kept(&self) -> Kept<'_>
        ensures { result.control.now ++ flows result.accesses.now ≡ self.now }
    {
        Kept {
            control: &self.control,
            accesses: self.by_data.accesses(),
        }
    }
}
