//! What is made of statements, from the outermost inwards and from left to right.

ghost use Rattle.std.specs.Prelude.{◌≡◌, ◌+◌, ◌∷◌, [], ◌++◌, length, map, IfOk, OnOk};
ghost use Rattle.bl_tree.specs.declared.tree.StmtKind.TheOpen.{StmtKind-F};
ghost use Rattle.bl_tree.specs.Effects.{argument_mentions, optional_mentions, target_mentions, target_static};
ghost use Rattle.bl_tree.specs.Static.{index_mentions, mentions, set_of, static_of, whole};
ghost use Rattle.bl_graph_nodes.specs.Laws.{stmt};
ghost use Rattle.bl_graph.specs.Marks.{entered, resumed};
ghost use Rattle.bl_graph.specs.inner.Flows.{InOrder};
ghost use Rattle.bl_graph.specs.inner.Made.{BlockMade, BranchAdded, BranchesMade, ChainMade, ChoiceMade, Crossed};
ghost use Rattle.bl_graph.specs.inner.Made.{StatementMade, TurnMade, kinded};
ghost use Rattle.bl_graph.specs.inner.Parts.{act_part, node, past, pause_part};

use crate::accesses::DataEdges;
use crate::flow::{Flow, Mark, flows};
use crate::frame::{
    act_part, beside, choice_part, cobegin_part, endless_part, followed, guarded_part,
    joined_branch, leaving_outs, link_branch, link_guarded, no_branches, nothing, pause_part,
    until_part, while_part,
};
use crate::instant::{branches_instant, is_instant_block};
use crate::link::{link_each, link_if, link_lead};
use crate::part::{Branches, Links, Part, after, entered, resumed};
use bl_effects::mentions::{arguments, expr, indices, optional, static_of, statics};
use bl_effects::sets::set_of;
use bl_tree::graph::{Node, NodeKind};
use bl_tree::tree::{Arm, Branch, Expr, Guard, Path, Stmt, StmtKind};
use bl_tree::{List, NoMemory, Place, Static};
use std::alloc::Global;

/// What an expression reads.
fn reads_of(alloc: Global, e: &Expr) -> Result<List<Static>, NoMemory>
    ensures { IfOk result (λ reads. reads ≡ set_of (mentions e.now)) }
{
    let mut reads = List::new(alloc);
    expr(alloc, e, &mut reads)?;
    Ok(set_of(reads))
}

/// A declaration: it reads what its initial value does, and writes its variable.
fn declaring(
    alloc: Global,
    at: Place,
    k: u32,
    initial: &Option<Expr>,
    first: u32,
) -> Result<Part, NoMemory>
    ensures { IfOk result (λ made. made ≡ act_part at (set_of (optional_mentions initial.now)) (whole k ∷ []) first) }
{
    let mut reads = List::new(alloc);
    optional(alloc, initial, &mut reads)?;
    let mut writes = List::new(alloc);
    let fields = List::new(alloc);
    writes.push(Static { root: k, fields })?;
    act_part(alloc, at, set_of(reads), writes, first)
}

/// An assignment: it reads its value and the indices of its target, and writes its target.
fn assigning(alloc: Global, at: Place, path: &Path, e: &Expr, first: u32) -> Result<Part, NoMemory>
    ensures { IfOk result (λ made. made ≡ act_part at (set_of (index_mentions path.now ++ mentions e.now))
        (static_of path.now ∷ []) first) }
{
    let mut reads = List::new(alloc);
    indices(alloc, path, &mut reads)?;
    expr(alloc, e, &mut reads)?;
    let mut writes = List::new(alloc);
    writes.push(static_of(alloc, path)?)?;
    act_part(alloc, at, set_of(reads), writes, first)
}

/// A call: it reads its inputs and outputs, and writes its outputs.
fn calling(
    alloc: Global,
    at: Place,
    inputs: &[Expr],
    outputs: &[Path],
    first: u32,
) -> Result<Part, NoMemory>
    ensures { IfOk result (λ made. made ≡ act_part at (set_of (argument_mentions inputs.now outputs.now))
        (set_of (map static_of outputs.now)) first) }
{
    let mut reads = List::new(alloc);
    let mut writes = List::new(alloc);
    arguments(alloc, inputs, outputs, &mut reads)?;
    statics(alloc, outputs, &mut writes)?;
    act_part(alloc, at, set_of(reads), set_of(writes), first)
}

/// A `return`: it reads its value.
fn returning(alloc: Global, at: Place, e: &Option<Expr>, first: u32) -> Result<Part, NoMemory>
    ensures { IfOk result (λ made. made ≡ act_part at (set_of (optional_mentions e.now)) [] first) }
{
    let mut reads = List::new(alloc);
    optional(alloc, e, &mut reads)?;
    act_part(alloc, at, set_of(reads), List::new(alloc), first)
}

/// A node that reads and writes these.
fn made_node(
    place: Place,
    kind: NodeKind,
    mark: Mark,
    reads: List<Static>,
    writes: List<Static>,
) -> Flow
    ensures { result ≡ node place kind mark reads writes }
{
    Flow {
        node: Node { place, kind },
        mark,
        reads,
        writes,
    }
}

/// An `await`: it pauses, and its condition is tested when it is woken.
fn awaiting(alloc: Global, at: Place, e: &Expr, first: u32) -> Result<Part, NoMemory>
    ensures { IfOk result (λ made. made ≡ pause_part (node at NodeKind.Pause entered [] [])
        (node at NodeKind.Test resumed (set_of (mentions e.now)) []) (first + 1)) }
{
    let begins = made_node(
        at,
        NodeKind::Pause,
        entered(),
        List::new(alloc),
        List::new(alloc),
    );
    let reads = reads_of(alloc, e)?;
    let goes_on = made_node(at, NodeKind::Test, resumed(), reads, List::new(alloc));
    pause_part(alloc, begins, goes_on, after(first, 1)?)
}

/// Where a `run` begins: it reads its inputs and outputs, and writes its outputs.
fn entering(alloc: Global, at: Place, inputs: &[Expr], outputs: &[Path]) -> Result<Flow, NoMemory>
    ensures { IfOk result (λ made. made ≡ node at NodeKind.Start entered (set_of (argument_mentions inputs.now outputs.now))
        (set_of (map static_of outputs.now))) }
{
    let mut reads = List::new(alloc);
    let mut writes = List::new(alloc);
    arguments(alloc, inputs, outputs, &mut reads)?;
    statics(alloc, outputs, &mut writes)?;
    Ok(made_node(
        at,
        NodeKind::Start,
        entered(),
        set_of(reads),
        set_of(writes),
    ))
}

/// What the target of a `run` reads and writes.
fn targeting(
    alloc: Global,
    target: &Option<Path>,
    reads: &mut List<Static>,
    writes: &mut List<Static>,
) -> Result<(), NoMemory>
    ensures reads { OnOk result (reads.new ≡ reads.old ++ target_mentions target.now) }
    ensures writes { OnOk result (writes.new ≡ writes.old ++ target_static target.now) }
{
    if let Some(path) = target {
        indices(alloc, path, reads)?;
        writes.push(static_of(alloc, path)?)?;
    }
    Ok(())
}

/// Where a `run` goes on or ends: it reads the indices of its target too, and writes it.
fn resuming(
    alloc: Global,
    at: Place,
    target: &Option<Path>,
    inputs: &[Expr],
    outputs: &[Path],
) -> Result<Flow, NoMemory>
    ensures { IfOk result (λ made. made ≡ node at NodeKind.Resume resumed
        (set_of (target_mentions target.now ++ argument_mentions inputs.now outputs.now)) (set_of (target_static target.now ++ map static_of outputs.now))) }
{
    let mut reads = List::new(alloc);
    let mut writes = List::new(alloc);
    targeting(alloc, target, &mut reads, &mut writes)?;
    arguments(alloc, inputs, outputs, &mut reads)?;
    statics(alloc, outputs, &mut writes)?;
    Ok(made_node(
        at,
        NodeKind::Resume,
        resumed(),
        set_of(reads),
        set_of(writes),
    ))
}

/// A `run`.
fn running(
    alloc: Global,
    at: Place,
    target: &Option<Path>,
    inputs: &[Expr],
    outputs: &[Path],
    first: u32,
) -> Result<Part, NoMemory>
    ensures { IfOk result (λ made. made ≡ pause_part
        (node at NodeKind.Start entered (set_of (argument_mentions inputs.now outputs.now)) (set_of (map static_of outputs.now)))
        (node at NodeKind.Resume resumed (set_of (target_mentions target.now ++ argument_mentions inputs.now outputs.now))
        (set_of (target_static target.now ++ map static_of outputs.now))) (first + 1)) }
{
    let begins = entering(alloc, at, inputs, outputs)?;
    let goes_on = resuming(alloc, at, target, inputs, outputs)?;
    pause_part(alloc, begins, goes_on, after(first, 1)?)
}

/// The data edges between the branches of a `cobegin`, whose nodes are numbered from the first on.
fn cross(alloc: Global, first: u32, made: &Branches, edges: &mut DataEdges) -> Result<(), NoMemory>
    requires { InOrder 0 made.now.spans (length made.now.flows) }
    ensures { OnOk result (Crossed first made.now.flows made.now.spans edges.old edges.new) }
{
    let accesses = flows(alloc, &made.flows, &made.spans)?;
    edges.append(alloc, first, &accesses)
}

/// The number after that of a first node, and after that of an end in the same tick, where there is one.
fn past(first: u32, instant: bool) -> Result<u32, NoMemory>
    ensures { IfOk result (λ next. next ≡ past first instant) }
{
    if instant {
        after(first, 2)
    } else {
        after(first, 1)
    }
}

/// The statements of a block, one after another.
#[cycle(making)]
pub fn block(alloc: Global, body: &[Stmt], first: u32, links: &mut Links) -> Result<Part, NoMemory>
    ensures { IfOk result (λ made. BlockMade body.now first made links.old links.new) }
{
    let mut made = nothing(alloc);
    for s in body {
        let next = after(first, made.flows.len())?;
        let more = statement(alloc, s.place, &s.what, next, links)?;
        link_each(&made.outs, next, &mut links.control)?;
        made = followed(alloc, made, more)?;
    }
    Ok(made)
}

/// A statement, by its place and what it is.
#[cycle(making)]
fn statement(
    alloc: Global,
    at: Place,
    what: &StmtKind,
    first: u32,
    links: &mut Links,
) -> Result<Part, NoMemory>
    ensures { IfOk result (λ made. StatementMade (kinded at what.now) first made links.old links.new) }
{
    match what {
        StmtKind::Declare(k, initial) => {
            let made = declaring(alloc, at, *k, initial, first)?;
            Ok(made)
        }
        StmtKind::Assign(path, e) => {
            let made = assigning(alloc, at, path, e, first)?;
            Ok(made)
        }
        StmtKind::Call(_, inputs, outputs) => {
            let made = calling(alloc, at, inputs, outputs, first)?;
            Ok(made)
        }
        StmtKind::Await(e) => {
            let made = awaiting(alloc, at, e, first)?;
            Ok(made)
        }
        StmtKind::Run(target, _, inputs, outputs) => {
            let made = running(alloc, at, target, inputs, outputs, first)?;
            Ok(made)
        }
        StmtKind::If(_, _) => {
            let made = branching(alloc, at, what, first, links)?;
            Ok(made)
        }
        StmtKind::Cobegin(branches) => {
            let made = cobegin(alloc, at, branches, first, links)?;
            Ok(made)
        }
        StmtKind::When(guard, e, body) => {
            let made = guarded(alloc, at, *guard, body, e, first, links)?;
            Ok(made)
        }
        StmtKind::Repeat(body) => {
            let made = endless(alloc, at, body, first, links)?;
            Ok(made)
        }
        StmtKind::Until(body, e) => {
            let made = until(alloc, at, body, e, first, links)?;
            Ok(made)
        }
        StmtKind::While(e, body) => {
            let made = testing(alloc, at, body, e, first, links)?;
            Ok(made)
        }
        StmtKind::Return(e) => {
            let made = returning(alloc, at, e, first)?;
            Ok(made)
        }
    }
}

/// A condition of an `if`, and its block. Whether more follows is told.
#[cycle(making)]
fn choice(
    alloc: Global,
    at: Place,
    reads: List<Static>,
    body: &[Stmt],
    more: bool,
    first: u32,
    links: &mut Links,
) -> Result<Part, NoMemory>
    ensures { IfOk result (λ made. ChoiceMade at reads body.now more first made links.old links.new) }
{
    let start = after(first, 1)?;
    let inside = block(alloc, body, start, links)?;
    let next = after(start, inside.flows.len())?;
    let empty = body.is_empty();
    link_if(!empty, first, start, &mut links.control)?;
    link_if(more, first, next, &mut links.control)?;
    let made = choice_part(alloc, at, reads, empty | !more, first, inside)?;
    Ok(made)
}

/// The further conditions of an `if`, whose nodes are numbered from the first on. Whether its `else` part is empty is told.
#[cycle(making)]
fn chain(
    alloc: Global,
    arms: &[Arm],
    bare: bool,
    first: u32,
    made: Part,
    links: &mut Links,
) -> Result<Part, NoMemory>
    ensures { IfOk result (λ part. ChainMade arms.now bare first made part links.old links.new) }
{
    let mut made = made;
    let mut left = arms.len();
    for arm in arms {
        left -= 1;
        let more = (left > 0) | !bare;
        let next = after(first, made.flows.len())?;
        let reads = reads_of(alloc, &arm.test)?;
        let part = choice(alloc, arm.test.place, reads, &arm.body, more, next, links)?;
        made = beside(made, part)?;
    }
    Ok(made)
}

/// An `if`. One without an arm would do its `else` part, whatever its condition.
#[cycle(making)]
fn branching(
    alloc: Global,
    at: Place,
    what: &StmtKind,
    first: u32,
    links: &mut Links,
) -> Result<Part, NoMemory>
    ensures { IfOk result (λ made. StatementMade (kinded at what.now) first made links.old links.new) }
{
    let StmtKind::If(arms, other) = what else {
        return Err(NoMemory);
    };
    let arms = arms.as_slice();
    let other = other.as_slice();
    let bare = other.is_empty();
    if arms.is_empty() {
        let made = choice(alloc, at, List::new(alloc), other, !bare, first, links)?;
        let next = after(first, made.flows.len())?;
        let last = block(alloc, other, next, links)?;
        let all = beside(made, last)?;
        Ok(all)
    } else {
        let arm = &arms[0];
        let rest = &arms[1..];
        let more = (rest.len() > 0) | !bare;
        let reads = reads_of(alloc, &arm.test)?;
        let made = choice(alloc, at, reads, &arm.body, more, first, links)?;
        let part = chain(alloc, rest, bare, first, made, links)?;
        let next = after(first, part.flows.len())?;
        let last = block(alloc, other, next, links)?;
        let all = beside(part, last)?;
        Ok(all)
    }
}

/// A branch of a `cobegin` after those that were made.
#[cycle(making)]
fn branch(
    alloc: Global,
    branch: &Branch,
    made: Branches,
    instant: bool,
    first: u32,
    join: u32,
    links: &mut Links,
) -> Result<Branches, NoMemory>
    ensures { IfOk result (λ joined. BranchAdded branch.now first join instant made joined links.old links.new) }
{
    let begins = after(join, 1)?;
    let start = after(begins, made.flows.len())?;
    let inside = branch.body.as_slice();
    let empty = inside.is_empty();
    let body = block(alloc, inside, start, links)?;
    let leave = leaving_outs(alloc, branch.weak, start, &body)?;
    link_branch(
        alloc,
        empty,
        instant,
        first,
        join,
        start,
        &leave,
        &mut links.control,
    )?;
    let joined = joined_branch(made, &leave, body)?;
    Ok(joined)
}

/// The branches of a `cobegin`.
#[cycle(making)]
fn all_branches(
    alloc: Global,
    branches: &[Branch],
    instant: bool,
    first: u32,
    join: u32,
    links: &mut Links,
) -> Result<Branches, NoMemory>
    ensures { IfOk result (λ made. BranchesMade branches.now first join instant made links.old links.new) }
{
    let mut made = no_branches(alloc);
    for each in branches {
        made = branch(alloc, each, made, instant, first, join, links)?;
    }
    Ok(made)
}

/// A `cobegin`.
#[cycle(making)]
fn cobegin(
    alloc: Global,
    at: Place,
    branches: &[Branch],
    first: u32,
    links: &mut Links,
) -> Result<Part, NoMemory>
    ensures { IfOk result (λ made. StatementMade (stmt at (StmtKind-F.Cobegin branches.now)) first made links.old links.new) }
{
    let instant = branches_instant(branches);
    let join = past(first, instant)?;
    let made = all_branches(alloc, branches, instant, first, join, links)?;
    cross(alloc, after(join, 1)?, &made, &mut links.by_data)?;
    let part = cobegin_part(alloc, at, instant, first, join, made)?;
    Ok(part)
}

/// A `when`.
#[cycle(making)]
fn guarded(
    alloc: Global,
    at: Place,
    guard: Guard,
    body: &[Stmt],
    e: &Expr,
    first: u32,
    links: &mut Links,
) -> Result<Part, NoMemory>
    ensures { IfOk result (λ made. StatementMade (stmt at (StmtKind-F.When guard e.now body.now)) first made links.old links.new) }
{
    let instant = is_instant_block(body);
    let check = past(first, instant)?;
    let start = after(check, 2)?;
    let empty = body.is_empty();
    let inside = block(alloc, body, start, links)?;
    link_guarded(
        alloc,
        guard,
        empty,
        instant,
        first,
        check,
        &inside,
        &mut links.control,
    )?;
    let reads = reads_of(alloc, e)?;
    let made = guarded_part(
        alloc, at, guard, reads, empty, instant, first, check, inside,
    )?;
    Ok(made)
}

/// The body of a loop, and the edges of its turn: from the loop's first node and to its last.
#[cycle(making)]
fn turn(
    alloc: Global,
    body: &[Stmt],
    start: u32,
    first: u32,
    last: u32,
    links: &mut Links,
) -> Result<Part, NoMemory>
    ensures { IfOk result (λ made. TurnMade body.now start first last made links.old links.new) }
{
    let empty = body.is_empty();
    let inside = block(alloc, body, start, links)?;
    link_lead(first, empty, start, last, &mut links.control)?;
    link_each(&inside.outs, last, &mut links.control)?;
    Ok(inside)
}

/// A loop without end.
#[cycle(making)]
fn endless(
    alloc: Global,
    at: Place,
    body: &[Stmt],
    first: u32,
    links: &mut Links,
) -> Result<Part, NoMemory>
    ensures { IfOk result (λ made. StatementMade (stmt at (StmtKind-F.Repeat body.now)) first made links.old links.new) }
{
    let start = after(first, 1)?;
    let inside = turn(alloc, body, start, first, first, links)?;
    let made = endless_part(alloc, at, inside)?;
    Ok(made)
}

/// A loop that tests after its body.
#[cycle(making)]
fn until(
    alloc: Global,
    at: Place,
    body: &[Stmt],
    e: &Expr,
    first: u32,
    links: &mut Links,
) -> Result<Part, NoMemory>
    ensures { IfOk result (λ made. StatementMade (stmt at (StmtKind-F.Until body.now e.now)) first made links.old links.new) }
{
    let test = after(first, 1)?;
    let start = after(test, 1)?;
    let empty = body.is_empty();
    let inside = turn(alloc, body, start, first, test, links)?;
    link_if(true, test, first, &mut links.control)?;
    let reads = reads_of(alloc, e)?;
    let made = until_part(alloc, at, reads, empty, test, inside)?;
    Ok(made)
}

/// A loop that tests before its body.
#[cycle(making)]
fn testing(
    alloc: Global,
    at: Place,
    body: &[Stmt],
    e: &Expr,
    first: u32,
    links: &mut Links,
) -> Result<Part, NoMemory>
    ensures { IfOk result (λ made. StatementMade (stmt at (StmtKind-F.While e.now body.now)) first made links.old links.new) }
{
    let start = after(first, 1)?;
    let inside = turn(alloc, body, start, first, first, links)?;
    let reads = reads_of(alloc, e)?;
    let made = while_part(alloc, at, reads, first, inside)?;
    Ok(made)
}
