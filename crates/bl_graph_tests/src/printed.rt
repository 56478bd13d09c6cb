//! Tick graphs as texts.

use crate::program::program_of;
use bl_effects::Effects;
use bl_graph::{Access, Graph, graph_of};
use bl_tree::graph::{Node, NodeKind};
use bl_tree::{NoMemory, Place};
use std::alloc::{AllocError, Global};
use std::fmt::Write;
use std::process::Abort;
use std::test::Fail;

/// What stands before each activity: a struct, two functions, and an activity that may be run.
const BEFORE: &str = "struct S var a: int32 var b: int32 end
function F ()(o: int32) o = 1 end
function G (s: S) returns int32 return s.a end
activity A (i: int32)(o: int32) returns int32 await true return i end
activity M ";

/// And what stands behind it.
const BEHIND: &str = " end @[EntryPoint] activity E () await true end";

/// The unit whose graph is printed.
const UNIT: u32 = 3;

/// The words for a kind in the table of statements.
fn words_of(kind: NodeKind) -> &'static str {
    match kind {
        NodeKind::Act => "act",
        NodeKind::Test => "test",
        NodeKind::Pause => "pause",
        NodeKind::Resume => "resume",
        NodeKind::Start => "start",
        NodeKind::Head => "head",
        NodeKind::Check => "check",
        NodeKind::SurfaceEnd => "surface end",
        NodeKind::DepthEnd => "depth end",
        NodeKind::Fork => "fork",
        NodeKind::SurfaceJoin => "surface join",
        NodeKind::DepthJoin => "depth join",
    }
}

/// What the source has at a place.
fn spelled(text: &str, place: Place) -> &str {
    match text.get(place.start as usize..place.end as usize) {
        Some(part) => part,
        None => "",
    }
}

/// Whether the node is a writer that the access at each position stands for.
fn writing(alloc: Global, accesses: &[Access], node: usize) -> Result<Vec<bool>, AllocError> {
    let mut writing = Vec::new(alloc);
    for access in accesses {
        let writes = writes(*access, node, &writing);
        writing.push(writes)?;
    }
    Ok(writing)
}

fn writes(access: Access, node: usize, writing: &[bool]) -> bool {
    match access {
        Access::Write(writer, before) => match before {
            Some(earlier) => writer as usize == node || is_set(writing, earlier),
            None => writer as usize == node,
        },
        Access::Read(_, _) => false,
    }
}

fn is_set(flags: &[bool], at: u32) -> bool {
    flags.get(at as usize).copied().unwrap_or(false)
}

/// The edges that lead from a node: those of control, and then the data edges, each once and by the numbers of their ends.
fn leaving(alloc: Global, graph: &Graph, node: usize) -> Result<Vec<(bool, u32)>, AllocError> {
    let kept = graph.edges.kept();
    let mut ends = Vec::new(alloc);
    for edge in kept.control {
        if edge.from as usize == node {
            ends.push((false, edge.to))?;
        }
    }
    let writing = writing(alloc, kept.accesses, node)?;
    for access in kept.accesses {
        if let Access::Read(reader, from) = access {
            if is_set(&writing, *from) {
                ends.push((true, *reader))?;
            }
        }
    }
    ends.sort()?;
    ends.dedup();
    Ok(ends)
}

/// The mark before the end of an edge.
fn mark_of(by_data: bool) -> char {
    if by_data { '~' } else { '>' }
}

/// A line for a node: its number, its kind, where its edges lead, and what the source has at its place.
fn print_node(
    alloc: Global,
    text: &str,
    graph: &Graph,
    node: usize,
    shown: Node,
    into: &mut String,
) -> Result<(), AllocError> {
    let words = words_of(shown.kind);
    write!(into, "{node} {words}")?;
    for (by_data, to) in leaving(alloc, graph, node)?.iter() {
        let mark = mark_of(*by_data);
        write!(into, " {mark} {to}")?;
    }
    let spelled = spelled(text, shown.place);
    write!(into, ": {spelled}\n")
}

fn print_graph(alloc: Global, text: &str, graph: &Graph) -> Result<String, AllocError> {
    let mut printed = String::new(alloc);
    for (node, shown) in graph.nodes.iter().enumerate() {
        print_node(alloc, text, graph, node, *shown, &mut printed)?;
    }
    Ok(printed)
}

/// The graph of the unit at a position; none where there is no such unit or memory ends.
fn graph_at(alloc: Global, text: &str, unit: u32) -> Option<Graph> {
    let program = program_of(alloc, text.as_bytes())?;
    if unit as usize >= program.units.len() {
        return None;
    }
    let effects = Effects::of(alloc, &program).ok()?;
    graph_of(alloc, &program, &effects, unit).ok()
}

/// The tick graph of an activity as a text with a line for each node. Behind `>` stands the end of a control edge, and behind
/// `~` that of a data edge.
fn printed(alloc: Global, activity: &str) -> Result<String, AllocError> {
    let text = format!(in alloc; "{BEFORE}{activity}{BEHIND}")?;
    match graph_at(alloc, &text, UNIT) {
        Some(graph) => print_graph(alloc, &text, &graph),
        None => String::from_str(alloc, "no graph"),
    }
}

/// An activity, from its parameters to the last of its statements, and its tick graph.
pub struct Row {
    pub activity: &'static str,
    pub graph: &'static str,
}

/// Asserts that each activity has its graph.
pub fn all_have_their_graphs(rt: &impl Abort, alloc: Global, rows: &[Row]) -> Result<(), Fail> {
    for row in rows {
        let graph = printed(alloc, row.activity)?;
        assert_eq!(rt; graph.as_str(), row.graph, "{}", row.activity);
    }
    Ok(())
}
