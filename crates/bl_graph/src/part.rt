//! Parts of a body by the numbers of their nodes.

ghost use Rattle.std.specs.Prelude.{◌≡◌, ◌+◌, ◌∷◌, [], ◌++◌, map, IfOk, OnOk};
ghost use Rattle.bl_graph.specs.Marks.{again_by, begun_by, either, entered, inner, join_mark, last_end, leaving, resumed, unreached};
ghost use Rattle.bl_graph.specs.inner.Parts.{bare, bare_if, ends_by, leave_mark, moved_flow, moved_out, numbered, out_if, some_mark};

use crate::accesses::DataEdges;
use crate::flow::{Flow, Mark, Span};
use bl_tree::graph::{Edge, Node, NodeKind};
use bl_tree::tree::Guard;
use bl_tree::{List, NoMemory, Place, Static};
use std::alloc::Global;

/// The number of a node that leads on from a part, and how it is reached there.
#[derive(Clone, Copy)]
pub struct Out {
    pub node: u32,
    pub mark: Mark,
}

/// What is made of a statement or a block, with the marks of its nodes in it.
#[derive(Drop)]
pub struct Part {
    /// Its nodes in order.
    pub flows: List<Flow>,
    /// Those that lead on.
    pub outs: List<Out>,
    /// Those at which a tick may begin in it.
    pub resumes: List<u32>,
}

/// The branches of a `cobegin` so far, each node with its mark in its own branch.
#[derive(Drop)]
pub struct Branches {
    pub flows: List<Flow>,
    pub resumes: List<u32>,
    /// How the depth join is reached from them.
    pub left: Mark,
    /// Where each branch begins and ends in `flows`.
    pub spans: List<Span>,
}

/// The edges so far.
#[derive(Drop)]
pub struct Links {
    pub control: List<Edge>,
    pub by_data: DataEdges,
}

/// The number that many nodes further on. A number that doesn't fit is want of memory.
pub fn after(number: u32, count: usize) -> Result<u32, NoMemory>
    ensures { IfOk result (λ next. next ≡ number + count) }
{
    let Ok(count) = u32::try_from(count) else {
        return Err(NoMemory);
    };
    number.checked_add(count).ok_or(NoMemory)
}

// ---- marks

pub fn entered() -> Mark
    ensures { result ≡ entered }
{
    Mark {
        surface: true,
        depth: false,
    }
}

pub fn resumed() -> Mark
    ensures { result ≡ resumed }
{
    Mark {
        surface: false,
        depth: true,
    }
}

pub fn unreached() -> Mark
    ensures { result ≡ unreached }
{
    Mark {
        surface: false,
        depth: false,
    }
}

pub fn either(a: Mark, b: Mark) -> Mark
    ensures { result ≡ either a b }
{
    Mark {
        surface: a.surface | b.surface,
        depth: a.depth | b.depth,
    }
}

/// The mark of a node in what is around a part whose entry has a mark there.
pub fn inner(entry: Mark, mark: Mark) -> Mark
    ensures { result ≡ inner entry mark }
{
    Mark {
        surface: entry.surface & mark.surface,
        depth: mark.depth | (entry.depth & mark.surface),
    }
}

/// How a node may leave its branch.
pub fn leaving(mark: Mark) -> Mark
    ensures { result ≡ leaving mark }
{
    Mark {
        surface: mark.surface & mark.depth,
        depth: mark.depth,
    }
}

/// How some of these are reached.
pub fn some_mark(outs: &[Out]) -> Mark
    ensures { result ≡ some_mark outs.now }
{
    let mut mark = unreached();
    for out in outs {
        mark = either(mark, out.mark);
    }
    mark
}

/// How some of these leave their branch.
pub fn leave_mark(outs: &[Out]) -> Mark
    ensures { result ≡ leave_mark outs.now }
{
    let mut mark = unreached();
    for out in outs {
        mark = either(mark, leaving(out.mark));
    }
    mark
}

/// How the body of a `when` is entered.
pub fn begun_by(guard: Guard) -> Mark
    ensures { result ≡ begun_by guard }
{
    match guard {
        Guard::Abort => entered(),
        Guard::Reset => Mark {
            surface: true,
            depth: true,
        },
    }
}

/// How the ends of a `when` are reached from its body.
pub fn ends_by(guard: Guard, empty: bool, outs: &[Out]) -> Mark
    ensures { result ≡ ends_by guard empty outs.now }
{
    if empty {
        begun_by(guard)
    } else {
        inner(begun_by(guard), some_mark(outs))
    }
}

/// How the end of a `when` is reached that doesn't end in the tick in which it began.
pub fn last_end(guard: Guard, ends: Mark) -> Mark
    ensures { result ≡ last_end guard ends }
{
    match guard {
        Guard::Abort => Mark {
            surface: ends.surface,
            depth: true,
        },
        Guard::Reset => ends,
    }
}

/// How the body of a loop is entered.
pub fn again_by(ends: Mark) -> Mark
    ensures { result ≡ again_by ends }
{
    Mark {
        surface: true,
        depth: ends.depth,
    }
}

/// How the surface join is reached.
pub fn join_mark(left: Mark) -> Mark
    ensures { result ≡ join_mark left }
{
    Mark {
        surface: true,
        depth: left.surface,
    }
}

// ---- nodes

/// Appends a node.
pub fn push_node(
    flows: &mut List<Flow>,
    node: Node,
    mark: Mark,
    reads: List<Static>,
    writes: List<Static>,
) -> Result<(), NoMemory>
    ensures { OnOk result (flows.new ≡ flows.old ++ record { node = node; mark = mark; reads = reads; writes = writes } ∷ []) }
{
    flows.push(Flow {
        node,
        mark,
        reads,
        writes,
    })?;
    Ok(())
}

/// Appends a node that reads and writes nothing.
pub fn push_bare(
    alloc: Global,
    flows: &mut List<Flow>,
    place: Place,
    kind: NodeKind,
    mark: Mark,
) -> Result<(), NoMemory>
    ensures { OnOk result (flows.new ≡ flows.old ++ bare place kind mark ∷ []) }
{
    let node = Node { place, kind };
    push_node(flows, node, mark, List::new(alloc), List::new(alloc))
}

/// Appends a node that reads and writes nothing, where the test is true.
pub fn push_bare_if(
    alloc: Global,
    flows: &mut List<Flow>,
    test: bool,
    place: Place,
    kind: NodeKind,
    mark: Mark,
) -> Result<(), NoMemory>
    ensures { OnOk result (flows.new ≡ flows.old ++ bare_if test place kind mark) }
{
    if test {
        push_bare(alloc, flows, place, kind, mark)
    } else {
        Ok(())
    }
}

/// Appends the nodes of a part, in what is around it.
pub fn append_moved(entry: Mark, from: List<Flow>, into: &mut List<Flow>) -> Result<(), NoMemory>
    ensures { OnOk result (into.new ≡ into.old ++ map (moved_flow entry) from) }
{
    for flow in from.into_vec() {
        let Flow {
            node,
            mark,
            reads,
            writes,
        } = flow;
        push_node(into, node, inner(entry, mark), reads, writes)?;
    }
    Ok(())
}

/// Appends the nodes of a part.
pub fn append_flows(from: List<Flow>, into: &mut List<Flow>) -> Result<(), NoMemory>
    ensures { OnOk result (into.new ≡ into.old ++ from) }
{
    for flow in from.into_vec() {
        into.push(flow)?;
    }
    Ok(())
}

/// Appends what leads on, where the test is true.
pub fn push_out_if(outs: &mut List<Out>, test: bool, node: u32, mark: Mark) -> Result<(), NoMemory>
    ensures { OnOk result (outs.new ≡ outs.old ++ out_if test node mark) }
{
    if test {
        outs.push(Out { node, mark })?;
    }
    Ok(())
}

/// What leads on from a part, in what is around it.
pub fn moved_outs(alloc: Global, entry: Mark, outs: &[Out]) -> Result<List<Out>, NoMemory>
    ensures { IfOk result (λ moved. moved ≡ map (moved_out entry) outs.now) }
{
    let mut moved = List::new(alloc);
    for out in outs {
        moved.push(Out {
            node: out.node,
            mark: inner(entry, out.mark),
        })?;
    }
    Ok(moved)
}

/// Appends what leads on.
pub fn append_outs(from: &[Out], into: &mut List<Out>) -> Result<(), NoMemory>
    ensures { OnOk result (into.new ≡ into.old ++ from.now) }
{
    for out in from {
        into.push(*out)?;
    }
    Ok(())
}

/// Appends numbers.
pub fn append_numbers(from: &[u32], into: &mut List<u32>) -> Result<(), NoMemory>
    ensures { OnOk result (into.new ≡ into.old ++ from.now) }
{
    for number in from {
        into.push(*number)?;
    }
    Ok(())
}

/// The nodes with their numbers, from the first on.
pub fn numbered(alloc: Global, first: u32, flows: &[Flow]) -> Result<List<Out>, NoMemory>
    ensures { IfOk result (λ outs. outs ≡ numbered first flows.now) }
{
    let mut outs = List::new(alloc);
    let mut number = first;
    for flow in flows {
        outs.push(Out {
            node: number,
            mark: flow.mark,
        })?;
        number = after(number, 1)?;
    }
    Ok(outs)
}
