//! A closed walk of a tick graph that begins with a data edge at the first place, and numbers that show that none begins
//! earlier. Both are found without going along each data edge: a search passes each access once. No contract speaks of
//! them: who takes them looks whether they hold (`walks.rt`).
//!
//! Numbers of the nodes, and of accesses between them, never fall along an edge, and are the same for nodes that lead to each
//! other (`numbering.rt`). The first place is the least of a node with the number of an access that it writes. From there
//! the first data edge in the order of accesses is taken, and the shortest way back is looked for.

use crate::edges::count_of;
use crate::finishing::sorted;
use crate::numbering::numbers;
use crate::through::{sources, through};
use bl_graph::{Access, Graph, Kept};
use bl_tree::graph::{Edge, Node};
use bl_tree::slices::element;
use bl_tree::{List, NoMemory, Place};
use std::alloc::Global;

/// An edge, and the position of what it comes from: among the control edges, or among the accesses.
#[derive(Clone, Copy)]
pub struct Passed {
    pub edge: Edge,
    pub by: u32,
}

/// A closed walk by its first edge and the others, and the numbers of the nodes.
#[derive(Drop)]
pub struct Guess {
    pub first: Passed,
    pub rest: List<Passed>,
    pub numbers: List<usize>,
}

/// A guess, where there is one.
pub fn guess_of(alloc: Global, graph: &Graph) -> Result<Option<Guess>, NoMemory> {
    let kept = graph.edges.kept();
    let edges = through(alloc, graph.nodes.len(), kept)?;
    let count = count_of(&edges);
    let order = sorted(alloc, count, &edges)?;
    let numbers = numbers(alloc, count, &edges, &order)?;
    let Some(place) = first_place(&graph.nodes, &edges, &numbers) else {
        return Ok(None);
    };
    let Some(first) = first_edge(alloc, &graph.nodes, kept, &numbers, place)? else {
        return Ok(None);
    };
    match way_back(alloc, graph.nodes.len(), kept, edges, first)? {
        Some(rest) => Ok(Some(Guess {
            first,
            rest,
            numbers,
        })),
        None => Ok(None),
    }
}

// ---- where it begins

/// Whether the nodes have the same number.
fn are_level(numbers: &[usize], one: usize, other: usize) -> bool {
    match element(numbers, one) {
        Some(number) => match element(numbers, other) {
            Some(another) => *number == *another,
            None => false,
        },
        None => false,
    }
}

/// The place of a node, where there is one.
fn place_of(nodes: &[Node], node: u32) -> Option<Place> {
    match element(nodes, node as usize) {
        Some(node) => Some(node.place),
        None => None,
    }
}

/// The least place of a node with the number of an access that it writes.
fn first_place(nodes: &[Node], edges: &[Edge], numbers: &[usize]) -> Option<Place> {
    let mut first = None;
    for edge in edges {
        if edge.by_data && are_level(numbers, edge.from as usize, edge.to as usize) {
            first = earlier(first, place_of(nodes, edge.from));
        }
    }
    first
}

/// The one of two places that is before the other.
fn earlier(one: Option<Place>, other: Option<Place>) -> Option<Place> {
    match one {
        Some(place) => match other {
            Some(another) => { if another.is_before(place) { other } else { one } }
            None => one,
        },
        None => other,
    }
}

/// The first data edge between nodes of one number that begins at the place.
fn first_edge(
    alloc: Global,
    nodes: &[Node],
    kept: Kept<'_>,
    numbers: &[usize],
    place: Place,
) -> Result<Option<Passed>, NoMemory> {
    let count = nodes.len();
    let mut writers = List::new(alloc);
    for (k, access) in kept.accesses.iter().enumerate() {
        let own = count.saturating_add(k);
        match *access {
            Access::Write(node, before) => {
                let writer = match level_writer(&writers, numbers, count, before, own) {
                    Some(writer) => Some(writer),
                    None => own_writer(nodes, numbers, node, own, place),
                };
                writers.push(writer)?;
            }
            Access::Read(node, from) => {
                let found = level_writer(&writers, numbers, count, Some(from), node as usize);
                if let Some(writer) = found {
                    return Ok(made_edge(writer, node, k));
                }
                writers.push(None)?;
            }
        }
    }
    Ok(None)
}

/// The first writer of an access, where it has the number of a node.
fn level_writer(
    writers: &[Option<u32>],
    numbers: &[usize],
    count: usize,
    position: Option<u32>,
    node: usize,
) -> Option<u32> {
    match position {
        Some(k) => {
            if are_level(numbers, count.saturating_add(k as usize), node) {
                match element(writers, k as usize) {
                    Some(writer) => *writer,
                    None => None,
                }
            } else {
                None
            }
        }
        None => None,
    }
}

/// The node that writes, where it is at the place and has the number of its access.
fn own_writer(
    nodes: &[Node],
    numbers: &[usize],
    node: u32,
    own: usize,
    place: Place,
) -> Option<u32> {
    match place_of(nodes, node) {
        Some(at) => {
            if at == place && are_level(numbers, node as usize, own) {
                Some(node)
            } else {
                None
            }
        }
        None => None,
    }
}

/// The data edge that the access at a position makes.
fn made_edge(from: u32, to: u32, position: usize) -> Option<Passed> {
    match u32::try_from(position) {
        Ok(by) => Some(Passed {
            edge: Edge {
                from,
                to,
                by_data: true,
            },
            by,
        }),
        Err(_) => None,
    }
}

// ---- the way back

/// An edge that was gone along, and the position of the step before it.
#[derive(Clone, Copy)]
struct Step {
    passed: Passed,
    before: usize,
}

/// A search under way, nearest nodes first. Nodes of accesses come behind those of the graph.
#[derive(Drop)]
struct Search {
    count: usize,
    /// Its edges through accesses, and what each comes from.
    edges: List<Edge>,
    sources: List<u32>,
    /// By the nodes at which they begin, the positions of edges.
    positions: List<usize>,
    /// For each node the position of its first one, and behind the last node how many there are.
    starts: List<usize>,
    seen: List<bool>,
    steps: List<Step>,
    /// Accesses that are still to be looked at from the node at hand.
    open: Vec<u32>,
    /// Reads that were found from the node at hand.
    reads: Vec<u32>,
}

fn number_at(numbers: &[usize], at: usize) -> usize {
    match element(numbers, at) {
        Some(number) => *number,
        None => 0,
    }
}

/// Sets the element at a position, where there is one.
fn put<T: Drop>(elements: &mut List<T>, at: usize, element: T) {
    if at < elements.len() {
        elements.set(at, element);
    }
}

/// Puts a number on top.
fn stack(numbers: &mut Vec<u32>, number: u32) -> Result<(), NoMemory> {
    match numbers.push(number) {
        Ok(()) => Ok(()),
        Err(_) => Err(NoMemory),
    }
}

/// Where the edges of each node begin among the positions, and where those of the last end.
fn starts_of(alloc: Global, count: usize, edges: &[Edge]) -> Result<List<usize>, NoMemory> {
    let mut lengths = List::from_vec(vec![in alloc; 0usize; count]?);
    for edge in edges {
        let more = number_at(&lengths, edge.from as usize).saturating_add(1);
        put(&mut lengths, edge.from as usize, more);
    }
    let mut starts = List::new(alloc);
    let mut sum = 0usize;
    for length in lengths.iter() {
        starts.push(sum)?;
        sum = sum.saturating_add(*length);
    }
    starts.push(sum)?;
    Ok(starts)
}

/// The positions of edges by the nodes at which they begin. Those of one node stay as they are.
fn positions_of(alloc: Global, edges: &[Edge], starts: &[usize]) -> Result<List<usize>, NoMemory> {
    let mut next = List::from_vec(starts.to_vec(alloc)?);
    let mut positions = List::from_vec(vec![in alloc; 0usize; edges.len()]?);
    for (k, edge) in edges.iter().enumerate() {
        let at = number_at(&next, edge.from as usize);
        put(&mut next, edge.from as usize, at.saturating_add(1));
        put(&mut positions, at, k);
    }
    Ok(positions)
}

impl Search {
    fn new(
        alloc: Global,
        count: usize,
        kept: Kept<'_>,
        edges: List<Edge>,
    ) -> Result<Search, NoMemory> {
        let all = count.saturating_add(kept.accesses.len());
        let starts = starts_of(alloc, all, &edges)?;
        let positions = positions_of(alloc, &edges, &starts)?;
        Ok(Search {
            count,
            edges,
            sources: sources(alloc, kept)?,
            positions,
            starts,
            seen: List::from_vec(vec![in alloc; false; all]?),
            steps: List::new(alloc),
            open: Vec::new(alloc),
            reads: Vec::new(alloc),
        })
    }

    fn is_seen(&self, node: u32) -> bool {
        match element(&self.seen, node as usize) {
            Some(seen) => *seen,
            None => true,
        }
    }

    /// Goes along an edge, unless its end was seen before.
    fn go(&mut self, passed: Passed, before: usize) -> Result<(), NoMemory> {
        if !self.is_seen(passed.edge.to) {
            put(&mut self.seen, passed.edge.to as usize, true);
            self.steps.push(Step { passed, before })?;
        }
        Ok(())
    }

    /// The edge at a position by the nodes at which they begin.
    fn at(&self, k: usize) -> Option<Passed> {
        let position = *element(&self.positions, k)?;
        let edge = *element(&self.edges, position)?;
        let by = *element(&self.sources, position)?;
        Some(Passed { edge, by })
    }

    /// Goes along the control edges of a node, and takes up its accesses.
    fn leave(&mut self, node: u32, before: usize) -> Result<(), NoMemory> {
        let start = number_at(&self.starts, node as usize);
        let end = number_at(&self.starts, (node as usize).saturating_add(1));
        for k in start..end {
            if let Some(passed) = self.at(k) {
                if (passed.edge.to as usize) < self.count {
                    self.go(passed, before)?;
                } else {
                    stack(&mut self.open, passed.edge.to)?;
                }
            }
        }
        Ok(())
    }

    /// Takes up what comes behind an access, unless it was passed before.
    fn pass(&mut self, access: u32) -> Result<(), NoMemory> {
        if self.is_seen(access) {
            return Ok(());
        }
        put(&mut self.seen, access as usize, true);
        let start = number_at(&self.starts, access as usize);
        let end = number_at(&self.starts, (access as usize).saturating_add(1));
        for k in start..end {
            if let Some(passed) = self.at(k) {
                if (passed.edge.to as usize) < self.count {
                    stack(&mut self.reads, passed.by)?;
                } else {
                    stack(&mut self.open, passed.edge.to)?;
                }
            }
        }
        Ok(())
    }

    /// Finds the reads behind the accesses that were taken up.
    fn pass_all(&mut self) -> Result<(), NoMemory> {
        for _ in 0..self.edges.len().saturating_add(1) {
            match self.open.pop() {
                Some(access) => self.pass(access)?,
                None => return Ok(()),
            }
        }
        Ok(())
    }

    /// Goes along the data edges to the nodes of the reads that were found, in the order of accesses.
    fn follow(&mut self, accesses: &[Access], node: u32, before: usize) -> Result<(), NoMemory> {
        self.reads.sort_unstable();
        for k in 0..self.reads.len() {
            if let Some(by) = element(&self.reads, k).copied() {
                if let Some(Access::Read(reader, _)) = element(accesses, by as usize).copied() {
                    let edge = Edge {
                        from: node,
                        to: reader,
                        by_data: true,
                    };
                    self.go(Passed { edge, by }, before)?;
                }
            }
        }
        self.reads.clear();
        Ok(())
    }

    /// Goes along all edges of the node at which the step ends.
    fn spread(&mut self, accesses: &[Access], at: usize) -> Result<(), NoMemory> {
        if let Some(step) = element(&self.steps, at).copied() {
            let node = step.passed.edge.to;
            self.leave(node, at)?;
            self.pass_all()?;
            self.follow(accesses, node, at)?;
        }
        Ok(())
    }

    /// The position of the step that ends at the node.
    fn last(&self, node: u32) -> Option<usize> {
        for (k, step) in self.steps.iter().enumerate() {
            if step.passed.edge.to == node {
                return Some(k);
            }
        }
        None
    }
}

/// The fewest edges that lead from the end of the edge to its beginning.
fn way_back(
    alloc: Global,
    count: usize,
    kept: Kept<'_>,
    edges: List<Edge>,
    first: Passed,
) -> Result<Option<List<Passed>>, NoMemory> {
    let mut search = Search::new(alloc, count, kept, edges)?;
    search.go(first, 0)?;
    for at in 0..count {
        search.spread(kept.accesses, at)?;
    }
    match search.last(first.edge.from) {
        Some(last) => {
            let rest = steps_to(alloc, &search.steps, last)?;
            Ok(Some(rest))
        }
        None => Ok(None),
    }
}

/// The edges behind that of the first step, to that of the last.
fn steps_to(alloc: Global, steps: &[Step], last: usize) -> Result<List<Passed>, NoMemory> {
    let mut walk = Vec::new(alloc);
    let mut at = last;
    for _ in 0..steps.len() {
        at = put_step(steps, at, &mut walk)?;
    }
    walk.reverse();
    Ok(List::from_vec(walk))
}

/// Puts the edge of a step on top, and gives the position of the step before it. The first step stays.
fn put_step(steps: &[Step], at: usize, walk: &mut Vec<Passed>) -> Result<usize, NoMemory> {
    if at == 0 {
        return Ok(0);
    }
    match element(steps, at) {
        Some(step) => match walk.push(step.passed) {
            Ok(()) => Ok(step.before),
            Err(_) => Err(NoMemory),
        },
        None => Ok(0),
    }
}
