//! Ranks of an activity's nodes that follow the source text, as far as its tick graph allows that.
//!
//! A node is listed when all nodes are listed from which edges lead to it. Of these, the next one is a node to which
//! the last one leads, and else the first in the source. A `run` goes on right behind its beginning, where nothing else
//! is in the way. Data edges lead through accesses (`through.rt`), each of which is passed when all are listed that write
//! to it. No contract speaks of these ranks: who takes them looks whether they rise along every edge (`order.rt`,
//! `acyclic_order`).

use crate::through::through;
use bl_graph::Graph;
use bl_tree::graph::{Edge, Node, NodeKind};
use bl_tree::slices::element;
use bl_tree::{List, NoMemory};
use std::alloc::Global;

/// The number at a position; 0 where there is none.
fn number_at(numbers: &[u32], at: usize) -> u32 {
    match element(numbers, at) {
        Some(number) => *number,
        None => 0,
    }
}

/// Sets the element at a position, where there is one.
fn put<T: Drop>(elements: &mut List<T>, at: usize, element: T) {
    if at < elements.len() {
        elements.set(at, element);
    }
}

/// Puts a node on top.
fn stack(nodes: &mut Vec<u32>, node: u32) -> Result<(), NoMemory> {
    match nodes.push(node) {
        Ok(()) => Ok(()),
        Err(_) => Err(NoMemory),
    }
}

/// Whether the node is one of this kind.
fn is_resume(nodes: &[Node], node: u32) -> bool {
    match element(nodes, node as usize) {
        Some(node) => matches!(node.kind, NodeKind::Resume),
        None => false,
    }
}

/// Whether a `run` begins at the node: the next one is where it goes on.
fn begins_run(nodes: &[Node], node: u32) -> bool {
    is_resume(nodes, node.saturating_add(1))
}

/// Whether the node is a join of a `cobegin`.
fn is_join(nodes: &[Node], node: u32) -> bool {
    match element(nodes, node as usize) {
        Some(node) => matches!(node.kind, NodeKind::SurfaceJoin | NodeKind::DepthJoin),
        None => false,
    }
}

/// The node at which the edge begins, or at which it ends.
fn end_of(edge: Edge, begins: bool) -> u32 {
    if begins { edge.from } else { edge.to }
}

/// How many edges begin, or end, at each node.
fn counted(
    alloc: Global,
    count: usize,
    edges: &[Edge],
    begins: bool,
) -> Result<List<u32>, NoMemory> {
    let mut counts = List::from_vec(vec![in alloc; 0u32; count]?);
    for edge in edges {
        let at = end_of(*edge, begins) as usize;
        let more = number_at(&counts, at).saturating_add(1);
        put(&mut counts, at, more);
    }
    Ok(counts)
}

/// The sums of the numbers before each.
fn sums(alloc: Global, counts: &[u32]) -> Result<List<u32>, NoMemory> {
    let mut sums = List::new(alloc);
    let mut sum = 0u32;
    for count in counts {
        sums.push(sum)?;
        sum = sum.saturating_add(*count);
    }
    Ok(sums)
}

/// The edges by the nodes at which they begin, or end, where each node has the position of its first one. Those of one node
/// stay as they are.
fn placed(
    alloc: Global,
    edges: &[Edge],
    starts: List<u32>,
    begins: bool,
) -> Result<List<Edge>, NoMemory> {
    let mut next = starts;
    let mut placed = List::from_vec(edges.to_vec(alloc)?);
    for edge in edges {
        let node = end_of(*edge, begins) as usize;
        let at = number_at(&next, node);
        put(&mut next, node, at.saturating_add(1));
        put(&mut placed, at as usize, *edge);
    }
    Ok(placed)
}

/// Adds one for each `run` that goes on: it waits for its beginning too.
fn wait_for_beginnings(nodes: &[Node], waits: &mut List<u32>) {
    for at in 0..nodes.len() {
        if let Some(node) = element(nodes, at) {
            if matches!(node.kind, NodeKind::Resume) {
                let more = number_at(waits, at).saturating_add(1);
                put(waits, at, more);
            }
        }
    }
}

/// A sweep under way. Nodes of accesses come behind those of the graph.
#[derive(Drop)]
struct Sweep {
    /// The edges by the nodes at which they begin, and then by those at which they end.
    edges: List<Edge>,
    /// For each node the position of its first edge, and how many there are.
    starts: List<u32>,
    lengths: List<u32>,
    /// For how many nodes each node waits.
    waits: List<u32>,
    /// Where edges lead from the node that is listed now, in ascending order.
    targets: Vec<u32>,
    /// Nodes whose edges are still to be looked at for that.
    passed: Vec<u32>,
    /// Those that can be listed now, the next one last.
    ready: Vec<u32>,
    /// Beginnings of `run`s that could be listed, but what goes on there waits for others too.
    early: Vec<u32>,
    /// Places where a `run` goes on that wait for their beginnings alone.
    held: Vec<u32>,
    /// 0 of a node that isn't listed, and else one more than its rank.
    listed: List<u32>,
    /// How many are listed.
    count: u32,
}

impl Sweep {
    fn new(alloc: Global, graph: &Graph) -> Result<Sweep, NoMemory> {
        let kept = graph.edges.kept();
        let count = graph.nodes.len().saturating_add(kept.accesses.len());
        let found = through(alloc, graph.nodes.len(), kept)?;
        let lengths = counted(alloc, count, &found, true)?;
        let mut waits = counted(alloc, count, &found, false)?;
        let by_end = placed(alloc, &found, sums(alloc, &waits)?, false)?;
        let edges = placed(alloc, &by_end, sums(alloc, &lengths)?, true)?;
        let starts = sums(alloc, &lengths)?;
        wait_for_beginnings(&graph.nodes, &mut waits);
        Ok(Sweep {
            edges,
            starts,
            lengths,
            waits,
            targets: Vec::new(alloc),
            passed: Vec::new(alloc),
            ready: Vec::new(alloc),
            early: Vec::new(alloc),
            held: Vec::new(alloc),
            listed: List::from_vec(vec![in alloc; 0u32; count]?),
            count: 0,
        })
    }

    fn is_listed(&self, node: u32) -> bool {
        number_at(&self.listed, node as usize) != 0
    }

    fn waits_for(&self, node: u32) -> u32 {
        number_at(&self.waits, node as usize)
    }

    /// A node waits for no other any more.
    fn admit(&mut self, nodes: &[Node], node: u32) -> Result<(), NoMemory> {
        if begins_run(nodes, node) && self.waits_for(node.saturating_add(1)) > 1 {
            stack(&mut self.early, node)
        } else {
            stack(&mut self.ready, node)
        }
    }

    /// Where a `run` goes on waits for one node alone. If that is the beginning, it comes next where it can.
    fn hold(&mut self, node: u32) -> Result<(), NoMemory> {
        let start = node.saturating_sub(1);
        if self.is_listed(start) {
            Ok(())
        } else if self.waits_for(start) == 0 {
            stack(&mut self.ready, start)
        } else {
            stack(&mut self.held, node)
        }
    }

    /// Takes up a node that waits for so many others.
    fn look(&mut self, nodes: &[Node], node: u32, waits: u32) -> Result<(), NoMemory> {
        if waits == 0 {
            self.admit(nodes, node)
        } else if waits == 1 && is_resume(nodes, node) {
            self.hold(node)
        } else {
            Ok(())
        }
    }

    /// The node waits for one node fewer.
    fn lower(&mut self, nodes: &[Node], node: u32) -> Result<(), NoMemory> {
        let left = self.waits_for(node).saturating_sub(1);
        put(&mut self.waits, node as usize, left);
        self.look(nodes, node, left)
    }

    /// The node to which the edge at the position leads.
    fn target(&self, at: usize) -> Option<u32> {
        match element(&self.edges, at) {
            Some(edge) => Some(edge.to),
            None => None,
        }
    }

    /// An edge leads to a node of the graph, or to an access. An access that waits for no other any more is passed.
    fn reach(&mut self, nodes: &[Node], to: u32) -> Result<(), NoMemory> {
        if (to as usize) < nodes.len() {
            return stack(&mut self.targets, to);
        }
        let left = self.waits_for(to).saturating_sub(1);
        put(&mut self.waits, to as usize, left);
        if left == 0 {
            stack(&mut self.passed, to)
        } else {
            Ok(())
        }
    }

    /// Looks where edges lead from a node.
    fn reach_all(&mut self, nodes: &[Node], node: u32) -> Result<(), NoMemory> {
        let start = number_at(&self.starts, node as usize) as usize;
        let length = number_at(&self.lengths, node as usize) as usize;
        for k in 0..length {
            if let Some(to) = self.target(start.saturating_add(k)) {
                self.reach(nodes, to)?;
            }
        }
        Ok(())
    }

    /// Looks where edges lead from the accesses that are passed.
    fn pass(&mut self, nodes: &[Node]) -> Result<(), NoMemory> {
        // each access is passed once
        for _ in 0..self.waits.len() {
            match self.passed.pop() {
                Some(access) => self.reach_all(nodes, access)?,
                None => return Ok(()),
            }
        }
        Ok(())
    }

    /// Finds where edges lead from a node.
    fn find_targets(&mut self, nodes: &[Node], node: u32) -> Result<(), NoMemory> {
        self.targets.clear();
        self.reach_all(nodes, node)?;
        if !self.passed.is_empty() {
            self.pass(nodes)?;
            self.targets.sort_unstable();
        }
        Ok(())
    }

    /// What is found, joins or others, waits for one node fewer. The first is taken up last.
    fn lower_all(&mut self, nodes: &[Node], joins: bool) -> Result<(), NoMemory> {
        for k in (0..self.targets.len()).rev() {
            let to = number_at(&self.targets, k);
            if is_join(nodes, to) == joins {
                self.lower(nodes, to)?;
            }
        }
        Ok(())
    }

    /// Lists a node, unless it is listed.
    fn list(&mut self, nodes: &[Node], node: u32) -> Result<(), NoMemory> {
        if self.is_listed(node) {
            return Ok(());
        }
        self.count = self.count.saturating_add(1);
        put(&mut self.listed, node as usize, self.count);
        self.find_targets(nodes, node)?;
        self.lower_all(nodes, true)?;
        self.lower_all(nodes, false)?;
        if begins_run(nodes, node) {
            self.lower(nodes, node.saturating_add(1))?;
        }
        Ok(())
    }

    /// The next node. Where none is ready, a beginning whose `run` goes on later, and else the last place where one goes on.
    fn next(&mut self) -> Option<u32> {
        if let Some(node) = self.ready.pop() {
            return Some(node);
        }
        if let Some(node) = self.early.pop() {
            return Some(node);
        }
        self.held.pop()
    }

    /// Takes up what waits for no other from the beginning on, so that the first node comes first.
    fn begin(&mut self, nodes: &[Node]) -> Result<(), NoMemory> {
        for at in (0..nodes.len()).rev() {
            match u32::try_from(at) {
                Ok(node) => self.look(nodes, node, self.waits_for(node))?,
                Err(_) => return Err(NoMemory),
            }
        }
        Ok(())
    }
}

/// Numbers for the nodes of a tick graph in the order of the sweep.
pub fn ranks(alloc: Global, graph: &Graph) -> Result<List<u32>, NoMemory> {
    let mut sweep = Sweep::new(alloc, graph)?;
    sweep.begin(&graph.nodes)?;
    // a node is taken up three times at most: as a beginning early, behind what it waits for, and for what goes on there
    for _ in 0..graph.nodes.len().saturating_mul(3) {
        if let Some(node) = sweep.next() {
            sweep.list(&graph.nodes, node)?;
        }
    }
    Ok(sweep.listed)
}
