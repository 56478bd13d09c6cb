//! The tick graph of an activity: what may act after what in one tick (docs/LANGUAGE.md, "Tick graphs"). Control edges,
//! surfaces and depths are defined by recursion on plain statements (`specs/Edges.antt`), and on them data edges
//! (`specs/DataEdges.antt`) and what a `Graph` shows of a body (`specs/Graph.antt`, `IsTickGraph`). `graph_of_body` gives
//! the graph of a body, and `graph_of` that of a program's unit, which hangs on its body alone. Both fail for want of memory
//! alone. The graph is made in one pass over the body, each part with its nodes, which of them lead on and how they are
//! reached. How surfaces and depths are found so, by marks, is in `specs/Marks.antt`, and all edges are listed by them
//! (`specs/Listed.antt`). The edges of a `Graph` are in contracts the list of all of them. It keeps data edges as accesses,
//! from which `specs/Accesses.antt` makes them: m writers of a path and n readers take m and n accesses. `Edges::kept` shows
//! control edges and accesses.
//!
//! Laws (`specs/Laws.antt`): a graph speaks of the body's nodes alone; what may end in the tick in which it begins has a
//! way through it; what may be written before the next pause is written at a node that is reached from the entry; labels
//! tell nodes of different branches apart; marks tell surfaces and depths, and the listed edges are the edges.
#![tactic(auto)]

ghost use Rattle.bl_graph_nodes.specs.Plain.{Block};
ghost use Rattle.bl_graph.specs.Laws.{BranchesPart, EdgesAreListed, FlowsAreListed, InstantsPass, MarksTell, StaysWithin, WritersAreReached};

mod accesses;
mod build;
mod flow;
mod frame;
mod graph;
mod instant;
mod link;
mod part;
mod tick_graph;

pub use accesses::{Access, DataEdges};
use bl_graph_nodes::{labels_tell_apart, nodes_differ, plain_statements};
pub use graph::{graph_of, graph_of_body};
pub use tick_graph::{Edges, Graph, Kept};

/// The edges of a body join nodes of it, and its surface and depth are made of such.
pub fn graphs_stay_within()
    ensures { (body : Block) → StaysWithin body }
{}

/// What may end in the tick in which it begins leads from its entry to what follows it.
pub fn instants_pass()
    ensures { InstantsPass }
{}

/// What a statement or a block may write before it pauses is written at a node that is reached from its entry.
pub fn writers_are_reached()
    ensures { WritersAreReached }
{}

/// Two nodes that stand in different branches of one `cobegin` are two, and so are their statements.
pub fn branches_part()
    ensures { BranchesPart }
{
    labels_tell_apart();
    plain_statements();
}

/// Marks that are made in one pass, from the innermost statements outwards, tell the surface and the depth of a body.
pub fn marks_tell()
    ensures { MarksTell }
{
    nodes_differ();
}

/// The control edges of a body as a list, for which what leaves a branch is found by marks.
pub fn edges_are_listed()
    ensures { EdgesAreListed }
{
    nodes_differ();
}

/// The data edges of a body as a list.
pub fn flows_are_listed()
    ensures { FlowsAreListed }
{
    nodes_differ();
}
