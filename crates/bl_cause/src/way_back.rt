//! A breadth-first search for a walk from the end of an edge to its beginning.

ghost use Rattle.std.specs.Prelude.{◌≡◌, ◌<◌, true, false, [], ◌∷◌, ◌++◌, replicate, slice_index_or, slice_set};
ghost use Rattle.std.specs.Prelude.{MatchOption, length, IfOk, OnOk, ⊤};
ghost use Rattle.bl_cause.specs.declared.way_back.Step.{Step as AStep};
ghost use Rattle.bl_cause.specs.inner.Found.{InGraphs, NoWalkFrom, WalkFrom};
ghost use Rattle.bl_cause.specs.inner.Lists.{RowsWithin, Within};
ghost use Rattle.bl_cause.specs.inner.Steps.{Closed, Earlier, Ends, LeadsTo, Tree, gone_along};

use bl_tree::graph::Edge;
use bl_tree::{List, NoMemory};
use std::alloc::Global;

/// An edge that was gone along, and the position of the step before it.
#[derive(Clone, Copy, PartialEq, Eq, Debug)]
pub struct Step {
    pub edge: Edge,
    pub before: usize,
}

/// What was found so far.
#[derive(Drop)]
pub struct Reached {
    /// Which nodes the steps end at.
    pub seen: List<bool>,
    /// The nearest first.
    pub steps: List<Step>,
}

/// The rest of a closed walk that begins with the edge, if there is one.
pub fn way_back(
    alloc: Global,
    rows: &[List<Edge>],
    first: Edge,
) -> Result<Option<Vec<Edge>>, NoMemory>
    requires rows { RowsWithin (length rows.now) rows.now }
    requires ends { first.to < length rows.now }
    ensures none { IfOk result (λ found. MatchOption found (NoWalkFrom rows.now first) (λ _. ⊤)) }
    ensures some { IfOk result (λ found. MatchOption found ⊤ (λ rest. WalkFrom rows.now first rest.items)) }
{
    let steps = steps_from(alloc, rows, first)?;
    match last_step(&steps, first.from) {
        None => Ok(None),
        Some(last) => {
            let rest = walk_to(alloc, &steps, last)?;
            Ok(Some(rest))
        }
    }
}

/// The edge and all that can follow on it, one step to each node that is reached.
fn steps_from(alloc: Global, rows: &[List<Edge>], first: Edge) -> Result<List<Step>, NoMemory>
    requires rows { RowsWithin (length rows.now) rows.now }
    requires ends { first.to < length rows.now }
    ensures earlier { IfOk result Earlier }
    ensures tree { IfOk result (λ steps. InGraphs rows.now (λ edges. Tree edges first steps)) }
    ensures closed { IfOk result (λ steps. InGraphs rows.now (λ edges. Closed edges steps)) }
{
    let mut reached = Reached::new(alloc, rows.len(), first)?;
    let mut at = 0;
    while at < reached.steps.len() {
        let node = reached.steps[at].edge.to;
        reached.spread(&rows[node as usize], at)?;
        at += 1;
    }
    Ok(reached.steps)
}

/// The position of the first step that ends at the node.
fn last_step(steps: &[Step], node: u32) -> Option<usize>
    ensures { MatchOption result (¬ Ends node steps.now) (λ k. (k < length steps.now) × ((d : AStep) → (slice_index_or steps.now k d).edge.to ≡ node)) }
{
    for (k, step) in steps.iter().enumerate() {
        if step.edge.to == node {
            return Some(k);
        }
    }
    None
}

/// The edges that lead from the end of the first step to that of the last.
fn walk_to(alloc: Global, steps: &[Step], last: usize) -> Result<Vec<Edge>, NoMemory>
    requires last { last < length steps.now }
    requires earlier { Earlier steps.now }
    ensures { IfOk result (λ walk. LeadsTo steps.now last walk.items) }
{
    let mut walk = List::new(alloc);
    let mut at = last;
    while at > 0 {
        let step = steps[at];
        walk.push(step.edge)?;
        at = step.before;
    }
    let mut walk = walk.into_vec();
    walk.reverse();
    Ok(walk)
}

impl Reached {
    fn new(alloc: Global, count: usize, first: Edge) -> Result<Reached, NoMemory>
        requires { first.to < count }
        ensures seen { IfOk result (λ reached. reached.seen ≡ slice_set (replicate count false) first.to true) }
        ensures steps { IfOk result (λ reached. reached.steps ≡ record { edge = first; before = 0 } ∷ []) }
    {
        let mut reached = Reached {
            seen: List::from_vec(vec![in alloc; false; count]?),
            steps: List::new(alloc),
        };
        reached.go(first, 0)?;
        Ok(reached)
    }

    /// Goes along the edges that lead to nodes not seen yet.
    fn spread(&mut self, row: &[Edge], before: usize) -> Result<(), NoMemory>
        requires row { Within (length self.old.seen) row.now }
        ensures { OnOk result (self.new ≡ gone_along before row.now self.old) }
    {
        for edge in row {
            if !self.seen[edge.to as usize] {
                self.go(*edge, before)?;
            }
        }
        Ok(())
    }

    fn go(&mut self, edge: Edge, before: usize) -> Result<(), NoMemory>
        requires { edge.to < length self.old.seen }
        ensures seen { OnOk result (self.new.seen ≡ slice_set self.old.seen edge.to true) }
        ensures steps { OnOk result (self.new.steps ≡ self.old.steps ++ record { edge = edge; before = before } ∷ []) }
    {
        self.seen.set(edge.to as usize, true);
        self.steps.push(Step { edge, before })?;
        Ok(())
    }
}
