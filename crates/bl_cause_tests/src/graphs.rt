//! Small graphs, and two large ones.

ghost use Rattle.std.specs.Prelude.{◌≡◌, ◌&&◌, ◌++◌, ◌∷◌, [], nat_lt, true, IfOk, IsTrue, OnOk};
ghost use Rattle.std.specs.List.{list_all};
ghost use Rattle.bl_graph.specs.Graph.{edge_between};

use bl_cause::{acyclic_order, ordered, twice};
use bl_graph::{Access, DataEdges, Edges, Graph};
use bl_tree::graph::{Edge, Node, NodeKind};
use bl_tree::{List, NoMemory, Place, Refusal};
use std::alloc::Global;
use std::process::Abort;

const MANY: u32 = 100_000;

fn control(from: u32, to: u32) -> Edge {
    Edge {
        from,
        to,
        by_data: false,
    }
}

fn data(from: u32, to: u32) -> Edge {
    Edge {
        from,
        to,
        by_data: true,
    }
}

/// A graph with a node at each of these starts. An edge that leads elsewhere is left out.
fn graph(alloc: Global, starts: &[u32], edges: &[Edge]) -> Result<Graph, NoMemory> {
    let mut nodes = List::new(alloc);
    for start in starts {
        let place = Place {
            start: *start,
            end: u32::MAX,
        };
        nodes.push(Node {
            place,
            kind: NodeKind::Act,
        })?;
    }
    let edges = joining(alloc, nodes.len(), edges)?;
    Ok(Graph { nodes, edges })
}

/// The edges with both ends among so many nodes.
fn joining(alloc: Global, count: usize, edges: &[Edge]) -> Result<Edges, NoMemory>
    ensures { IfOk result (λ kept. IsTrue (list_all (λ edge. nat_lt edge.from count && nat_lt edge.to count) kept)) }
{
    let control = controls(alloc, count, edges)?;
    let by_data = data_edges(alloc, count, edges)?;
    Ok(Edges::new(control, by_data))
}

/// The control edges among them.
fn controls(alloc: Global, count: usize, edges: &[Edge]) -> Result<List<Edge>, NoMemory>
    ensures { IfOk result (λ kept. IsTrue (list_all (λ edge. nat_lt edge.from count && nat_lt edge.to count) kept)) }
{
    let mut kept = List::new(alloc);
    for edge in edges {
        if !edge.by_data && (edge.from as usize) < count && (edge.to as usize) < count {
            kept.push(*edge)?;
        }
    }
    Ok(kept)
}

/// The data edges among them.
fn data_edges(alloc: Global, count: usize, edges: &[Edge]) -> Result<DataEdges, NoMemory>
    ensures { IfOk result (λ kept. IsTrue (list_all (λ edge. nat_lt edge.from count && nat_lt edge.to count) kept)) }
{
    let mut kept = DataEdges::new(alloc);
    for edge in edges {
        if edge.by_data && (edge.from as usize) < count && (edge.to as usize) < count {
            add(alloc, *edge, &mut kept)?;
        }
    }
    Ok(kept)
}

/// Appends a data edge: an access that writes, and one that reads it.
fn add(alloc: Global, edge: Edge, into: &mut DataEdges) -> Result<(), NoMemory>
    ensures { OnOk result (into.new ≡ into.old ++ edge_between edge.from edge.to true ∷ []) }
{
    into.append(
        alloc,
        0,
        &[Access::Write(edge.from, None), Access::Read(edge.to, 0)],
    )
}

/// The starts of the places that a refusal tells.
fn told(alloc: Global, refusal: Refusal) -> Result<List<u32>, NoMemory> {
    let mut starts = List::new(alloc);
    if let Refusal::Rule { place, also, .. } = refusal {
        starts.push(place.start)?;
        for further in also.iter() {
            starts.push(further.start)?;
        }
    }
    Ok(starts)
}

/// What rule Twice tells of the graph, and nothing where it doesn't fail.
fn told_twice(alloc: Global, graph: &Graph) -> Result<List<u32>, NoMemory> {
    match twice(alloc, graph) {
        Ok(()) => Ok(List::new(alloc)),
        Err(refusal) => told(alloc, refusal),
    }
}

/// What rule Cycle tells of the graph, and nothing where it or rule Twice doesn't fail.
fn told_cycle(alloc: Global, graph: &Graph) -> Result<List<u32>, NoMemory> {
    match twice(alloc, graph) {
        Ok(()) => match ordered(alloc, graph) {
            Ok(_) => Ok(List::new(alloc)),
            Err(refusal) => told(alloc, refusal),
        },
        Err(_) => Ok(List::new(alloc)),
    }
}

#[test]
fn the_node_between_two_cycles_is_on_none(rt: HostRuntime) -> Result<(), NoMemory> {
    let alloc = rt.alloc();
    let edges = [
        control(1, 2),
        control(2, 1),
        control(2, 0),
        control(0, 3),
        control(3, 4),
        control(4, 3),
    ];
    let graph = graph(alloc, &[5, 50, 60, 30, 40], &edges)?;
    assert_eq!(&rt; told_twice(alloc, &graph)?.as_slice(), [30, 40].as_slice());
    Ok(())
}

#[test]
fn an_edge_to_its_own_node_is_a_walk(rt: HostRuntime) -> Result<(), NoMemory> {
    let alloc = rt.alloc();
    let by_control = graph(alloc, &[3, 7], &[control(0, 1), control(1, 1)])?;
    assert_eq!(&rt; told_twice(alloc, &by_control)?.as_slice(), [7].as_slice());
    let by_data = graph(alloc, &[3, 7], &[control(0, 1), data(1, 1)])?;
    assert_eq!(&rt; told_twice(alloc, &by_data)?.len(), 0);
    assert_eq!(&rt; told_cycle(alloc, &by_data)?.as_slice(), [7].as_slice());
    Ok(())
}

#[test]
fn data_edges_alone_make_a_cycle(rt: HostRuntime) -> Result<(), NoMemory> {
    let alloc = rt.alloc();
    let graph = graph(alloc, &[104, 71], &[data(0, 1), data(1, 0)])?;
    assert_eq!(&rt; told_twice(alloc, &graph)?.len(), 0);
    assert_eq!(&rt; told_cycle(alloc, &graph)?.as_slice(), [71, 104].as_slice());
    Ok(())
}

/// The first place on the walk is no writer's.
#[test]
fn a_cycle_is_told_from_its_first_writer(rt: HostRuntime) -> Result<(), NoMemory> {
    let alloc = rt.alloc();
    let edges = [
        control(0, 1),
        data(1, 2),
        control(2, 3),
        data(3, 0),
        control(0, 4),
    ];
    let graph = graph(alloc, &[3, 20, 5, 10, 1], &edges)?;
    assert_eq!(&rt; told_twice(alloc, &graph)?.len(), 0);
    assert_eq!(&rt;
        told_cycle(alloc, &graph)?.as_slice(),
        [10, 3, 20, 5].as_slice()
    );
    Ok(())
}

#[test]
fn ranks_rise_without_cycles(rt: HostRuntime) -> Result<(), NoMemory> {
    let alloc = rt.alloc();
    let edges = [
        control(0, 1),
        control(0, 2),
        control(1, 3),
        control(2, 3),
        data(2, 1),
    ];
    let graph = graph(alloc, &[1, 2, 2, 1], &edges)?;
    if let Ok(()) = twice(alloc, &graph) {
        if let Ok(order) = ordered(alloc, &graph) {
            assert!(&rt; order.rank(0) < order.rank(2));
            assert!(&rt; order.rank(2) < order.rank(1));
            assert!(&rt; order.rank(1) < order.rank(3));
            return Ok(());
        }
    }
    assert!(&rt; false);
    Ok(())
}

/// A node at each start up to many, and an edge from each to the next.
fn chain(alloc: Global, closed: bool) -> Result<Graph, NoMemory> {
    let mut starts = List::new(alloc);
    let mut edges = List::new(alloc);
    for node in 0..MANY {
        starts.push(node)?;
        edges.push(control(node, node + 1))?;
    }
    if closed {
        edges.push(control(MANY - 1, 0))?;
    }
    graph(alloc, &starts, &edges)
}

#[test]
fn a_long_chain_has_an_order(rt: HostRuntime) -> Result<(), NoMemory> {
    let alloc = rt.alloc();
    let graph = chain(alloc, false)?;
    let mut last = 0;
    if let Ok(()) = twice(alloc, &graph) {
        if let Ok(order) = ordered(alloc, &graph) {
            last = order.rank(MANY - 1);
        }
    }
    assert_eq!(&rt; last, MANY - 1);
    Ok(())
}

#[test]
fn a_long_chain_that_closes_is_a_walk(rt: HostRuntime) -> Result<(), NoMemory> {
    let alloc = rt.alloc();
    let graph = chain(alloc, true)?;
    let walk = told_twice(alloc, &graph)?;
    assert_eq!(&rt; walk.len(), MANY as usize);
    assert_eq!(&rt; walk.get(0).copied(), Some(0));
    assert_eq!(&rt; walk.get(1).copied(), Some(1));
    Ok(())
}

/// Whether the graph has an order.
fn is_acyclic(alloc: Global, graph: &Graph) -> Result<bool, NoMemory> {
    let order = acyclic_order(alloc, graph)?;
    Ok(order.is_some())
}

#[test]
fn a_graph_has_an_order_unless_it_has_a_closed_walk(rt: HostRuntime) -> Result<(), NoMemory> {
    let alloc = rt.alloc();
    let backwards = graph(alloc, &[1, 2, 3], &[data(2, 1), control(1, 0)])?;
    assert!(&rt; is_acyclic(alloc, &backwards)?);
    let closed = graph(
        alloc,
        &[1, 2, 3],
        &[data(2, 1), control(1, 0), control(0, 2)],
    )?;
    assert!(&rt; !is_acyclic(alloc, &closed)?);
    let alone = graph(alloc, &[1], &[data(0, 0)])?;
    assert!(&rt; !is_acyclic(alloc, &alone)?);
    assert!(&rt; is_acyclic(alloc, &chain(alloc, false)?)?);
    assert!(&rt; !is_acyclic(alloc, &chain(alloc, true)?)?);
    Ok(())
}
