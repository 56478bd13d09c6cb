//! What stands around the blocks of a statement: its own nodes, and their edges, by numbers.

ghost use Rattle.std.specs.Prelude.{◌≡◌, ◌+◌, [], ◌++◌, ◌||◌, IfOk, OnOk};
ghost use Rattle.bl_graph.specs.Marks.{unreached};
ghost use Rattle.bl_graph.specs.inner.Parts.{act_part, branch_links, choice_part, cobegin_part, endless_part, exit_of, followed, side_by_side};
ghost use Rattle.bl_graph.specs.inner.Parts.{guarded_links, guarded_part, guarded_to, joined_branch, leaving_outs, links_from};
ghost use Rattle.bl_graph.specs.inner.Parts.{nothing, number_if, pause_part, until_part, while_part};

use crate::flow::{Flow, Mark, Span};
use crate::link::{link_all, link_depth, link_from, link_if, link_into, link_surface, push_if};
use crate::part::{
    Branches, Links, Out, Part, after, again_by, append_flows, append_moved, append_numbers,
    append_outs, begun_by, either, ends_by, entered, join_mark, last_end, leave_mark, moved_outs,
    numbered, push_bare, push_bare_if, push_node, push_out_if, resumed, some_mark, unreached,
};
use bl_tree::graph::{Edge, Node, NodeKind};
use bl_tree::tree::Guard;
use bl_tree::{List, NoMemory, Place, Static};
use std::alloc::Global;

/// Nothing was made yet.
pub fn nothing(alloc: Global) -> Part
    ensures { result ≡ nothing }
{
    Part {
        flows: List::new(alloc),
        outs: List::new(alloc),
        resumes: List::new(alloc),
    }
}

/// An act.
pub fn act_part(
    alloc: Global,
    at: Place,
    reads: List<Static>,
    writes: List<Static>,
    first: u32,
) -> Result<Part, NoMemory>
    ensures { IfOk result (λ made. made ≡ act_part at reads writes first) }
{
    let mut made = nothing(alloc);
    let node = Node {
        place: at,
        kind: NodeKind::Act,
    };
    push_node(&mut made.flows, node, entered(), reads, writes)?;
    push_out_if(&mut made.outs, true, first, entered())?;
    Ok(made)
}

/// A statement of two nodes, of which the second goes on.
pub fn pause_part(alloc: Global, begins: Flow, goes_on: Flow, next: u32) -> Result<Part, NoMemory>
    ensures { IfOk result (λ made. made ≡ pause_part begins goes_on next) }
{
    let mut made = nothing(alloc);
    made.flows.push(begins)?;
    made.flows.push(goes_on)?;
    push_out_if(&mut made.outs, true, next, resumed())?;
    made.resumes.push(next)?;
    Ok(made)
}

/// How what follows a part is entered.
fn exit_of(part: &Part) -> Mark
    ensures { result ≡ exit_of part.now }
{
    if part.flows.is_empty() {
        entered()
    } else {
        some_mark(&part.outs)
    }
}

/// A block, and a statement after it.
pub fn followed(alloc: Global, part: Part, more: Part) -> Result<Part, NoMemory>
    ensures { IfOk result (λ made. made ≡ followed part more) }
{
    let entry = exit_of(&part);
    let outs = moved_outs(alloc, entry, &more.outs)?;
    let mut part = part;
    append_numbers(&more.resumes, &mut part.resumes)?;
    append_moved(entry, more.flows, &mut part.flows)?;
    part.outs = outs;
    Ok(part)
}

/// One part beside another.
pub fn beside(part: Part, more: Part) -> Result<Part, NoMemory>
    ensures { IfOk result (λ made. made ≡ side_by_side part more) }
{
    let mut part = part;
    append_outs(&more.outs, &mut part.outs)?;
    append_numbers(&more.resumes, &mut part.resumes)?;
    append_flows(more.flows, &mut part.flows)?;
    Ok(part)
}

/// A condition of an `if` before its block.
pub fn choice_part(
    alloc: Global,
    at: Place,
    reads: List<Static>,
    leads_on: bool,
    first: u32,
    body: Part,
) -> Result<Part, NoMemory>
    ensures { IfOk result (λ made. made ≡ choice_part at reads leads_on first body) }
{
    let mut body = body;
    push_out_if(&mut body.outs, leads_on, first, entered())?;
    let mut flows = List::new(alloc);
    let node = Node {
        place: at,
        kind: NodeKind::Test,
    };
    push_node(&mut flows, node, entered(), reads, List::new(alloc))?;
    append_flows(body.flows, &mut flows)?;
    Ok(Part {
        flows,
        outs: body.outs,
        resumes: body.resumes,
    })
}

/// A `when` around its body.
pub fn guarded_part(
    alloc: Global,
    at: Place,
    guard: Guard,
    reads: List<Static>,
    empty: bool,
    instant: bool,
    first: u32,
    check: u32,
    body: Part,
) -> Result<Part, NoMemory>
    ensures { IfOk result (λ made. made ≡ guarded_part at guard reads empty instant first check body) }
{
    let ends = ends_by(guard, empty, &body.outs);
    let last = last_end(guard, ends);
    let mut made = nothing(alloc);
    push_bare(alloc, &mut made.flows, at, NodeKind::Start, entered())?;
    push_bare_if(
        alloc,
        &mut made.flows,
        instant,
        at,
        NodeKind::SurfaceEnd,
        ends,
    )?;
    let node = Node {
        place: at,
        kind: NodeKind::Check,
    };
    push_node(&mut made.flows, node, resumed(), reads, List::new(alloc))?;
    push_bare(alloc, &mut made.flows, at, NodeKind::DepthEnd, last)?;
    append_moved(begun_by(guard), body.flows, &mut made.flows)?;
    push_out_if(&mut made.outs, instant, after(first, 1)?, ends)?;
    push_out_if(&mut made.outs, true, after(check, 1)?, last)?;
    made.resumes.push(check)?;
    Ok(made)
}

/// How the end of a turn is reached.
fn turned(empty: bool, ends: Mark) -> Mark
    ensures { result ≡ record { surface = empty || ends.surface; depth = ends.depth } }
{
    Mark {
        surface: empty | ends.surface,
        depth: ends.depth,
    }
}

/// An endless loop around its body.
pub fn endless_part(alloc: Global, at: Place, body: Part) -> Result<Part, NoMemory>
    ensures { IfOk result (λ made. made ≡ endless_part at body) }
{
    let again = again_by(some_mark(&body.outs));
    let mut flows = List::new(alloc);
    push_bare(alloc, &mut flows, at, NodeKind::Head, again)?;
    append_moved(again, body.flows, &mut flows)?;
    Ok(Part {
        flows,
        outs: List::new(alloc),
        resumes: body.resumes,
    })
}

/// A loop that tests after its body.
pub fn until_part(
    alloc: Global,
    at: Place,
    reads: List<Static>,
    empty: bool,
    test: u32,
    body: Part,
) -> Result<Part, NoMemory>
    ensures { IfOk result (λ made. made ≡ until_part at reads empty test body) }
{
    let ends = some_mark(&body.outs);
    let again = again_by(ends);
    let last = turned(empty, ends);
    let mut flows = List::new(alloc);
    push_bare(alloc, &mut flows, at, NodeKind::Head, again)?;
    let node = Node {
        place: at,
        kind: NodeKind::Test,
    };
    push_node(&mut flows, node, last, reads, List::new(alloc))?;
    append_moved(again, body.flows, &mut flows)?;
    let mut outs = List::new(alloc);
    push_out_if(&mut outs, true, test, last)?;
    Ok(Part {
        flows,
        outs,
        resumes: body.resumes,
    })
}

/// A loop that tests before its body.
pub fn while_part(
    alloc: Global,
    at: Place,
    reads: List<Static>,
    test: u32,
    body: Part,
) -> Result<Part, NoMemory>
    ensures { IfOk result (λ made. made ≡ while_part at reads test body) }
{
    let again = again_by(some_mark(&body.outs));
    let mut flows = List::new(alloc);
    let node = Node {
        place: at,
        kind: NodeKind::Test,
    };
    push_node(&mut flows, node, again, reads, List::new(alloc))?;
    append_moved(again, body.flows, &mut flows)?;
    let mut outs = List::new(alloc);
    push_out_if(&mut outs, true, test, again)?;
    Ok(Part {
        flows,
        outs,
        resumes: body.resumes,
    })
}

/// A `cobegin` around its branches.
pub fn cobegin_part(
    alloc: Global,
    at: Place,
    instant: bool,
    first: u32,
    join: u32,
    made: Branches,
) -> Result<Part, NoMemory>
    ensures { IfOk result (λ part. part ≡ cobegin_part at instant first join made.left made.flows made.resumes) }
{
    let surface = join_mark(made.left);
    let mut flows = List::new(alloc);
    push_bare(alloc, &mut flows, at, NodeKind::Fork, entered())?;
    push_bare_if(
        alloc,
        &mut flows,
        instant,
        at,
        NodeKind::SurfaceJoin,
        surface,
    )?;
    push_bare(alloc, &mut flows, at, NodeKind::DepthJoin, made.left)?;
    append_flows(made.flows, &mut flows)?;
    let mut outs = List::new(alloc);
    push_out_if(&mut outs, instant, after(first, 1)?, surface)?;
    push_out_if(&mut outs, true, join, made.left)?;
    Ok(Part {
        flows,
        outs,
        resumes: made.resumes,
    })
}

// ---- edges

/// The nodes at which a `when` ends, or those to which a `cobegin` leads in the tick in which it begins.
fn ends(alloc: Global, instant: bool, first: u32) -> Result<List<u32>, NoMemory>
    ensures { IfOk result (λ numbers. numbers ≡ number_if instant (first + 1)) }
{
    let mut numbers = List::new(alloc);
    push_if(instant, after(first, 1)?, &mut numbers)?;
    Ok(numbers)
}

/// The edges of a condition of a `when`, where it is true.
fn link_guard(
    guard: Guard,
    empty: bool,
    check: u32,
    ends: &[u32],
    control: &mut List<Edge>,
) -> Result<(), NoMemory>
    ensures { OnOk result (control.new ≡ control.old ++ links_from check (guarded_to guard empty check ends.now)) }
{
    match guard {
        Guard::Abort => link_if(true, check, after(check, 1)?, control),
        Guard::Reset => link_into(check, empty, after(check, 2)?, ends, control),
    }
}

/// The edges of a `when` but for those in its body.
pub fn link_guarded(
    alloc: Global,
    guard: Guard,
    empty: bool,
    instant: bool,
    first: u32,
    check: u32,
    body: &Part,
    control: &mut List<Edge>,
) -> Result<(), NoMemory>
    ensures { OnOk result (control.new ≡ control.old ++ guarded_links guard empty instant first check body.now) }
{
    let mut ends = ends(alloc, instant, first)?;
    ends.push(after(check, 1)?)?;
    link_into(first, empty, after(check, 2)?, &ends, control)?;
    link_from(check, &body.resumes, control)?;
    link_guard(guard, empty, check, &ends, control)?;
    link_all(&body.outs, &ends, control)
}

/// The nodes of a branch from which its `cobegin` may end.
pub fn leaving_outs(
    alloc: Global,
    weak: bool,
    start: u32,
    body: &Part,
) -> Result<List<Out>, NoMemory>
    ensures { IfOk result (λ leave. leave ≡ leaving_outs weak start body.now) }
{
    if weak {
        numbered(alloc, start, &body.flows)
    } else {
        let mut leave = List::new(alloc);
        append_outs(&body.outs, &mut leave)?;
        Ok(leave)
    }
}

/// The edges of a branch: from the fork to it, and from it to the joins.
pub fn link_branch(
    alloc: Global,
    empty: bool,
    instant: bool,
    first: u32,
    join: u32,
    start: u32,
    leave: &[Out],
    control: &mut List<Edge>,
) -> Result<(), NoMemory>
    ensures { OnOk result (control.new ≡ control.old ++ branch_links empty instant first join start leave.now) }
{
    let ends = ends(alloc, instant, first)?;
    link_into(first, empty, start, &ends, control)?;
    if instant {
        link_surface(leave, after(first, 1)?, control)?;
    }
    link_depth(leave, join, control)
}

/// The branches so far, and one more.
pub fn joined_branch(made: Branches, leave: &[Out], body: Part) -> Result<Branches, NoMemory>
    ensures { IfOk result (λ joined. joined ≡ joined_branch made leave.now body) }
{
    let mut made = made;
    let first = after(0, made.flows.len())?;
    let end = after(first, body.flows.len())?;
    made.spans.push(Span { first, end })?;
    made.left = either(made.left, leave_mark(leave));
    append_numbers(&body.resumes, &mut made.resumes)?;
    append_flows(body.flows, &mut made.flows)?;
    Ok(made)
}

/// No branches yet.
pub fn no_branches(alloc: Global) -> Branches
    ensures { result ≡ record { flows = []; resumes = []; left = unreached; spans = [] } }
{
    Branches {
        flows: List::new(alloc),
        resumes: List::new(alloc),
        left: unreached(),
        spans: List::new(alloc),
    }
}
