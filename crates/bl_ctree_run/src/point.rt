//! The point of a node itself.

ghost use Rattle.std.specs.Prelude.{◌≡◌, ◌++◌, ◌∷◌, [], map, IfOk, OnOk, if◌then◌else◌};
ghost use Rattle.bl_tree.specs.declared.tree.Stmt.{out-Stmt};
ghost use Rattle.bl_tree.specs.Static.{set_of};
ghost use Rattle.bl_ctree.specs.Actions.{Acts, Asks, Copies, Silent};
ghost use Rattle.bl_ctree.specs.Control.{Nil, is_nil};
ghost use Rattle.bl_ctree.specs.Nodes.{branches_of, control_of, located, seen_of};
ghost use Rattle.bl_ctree.specs.Points.{begins, checks, copying, giving, joining, sure, tests, turns_on};
ghost use Rattle.bl_ctree.specs.Positions.{kind_of};
ghost use Rattle.bl_ctree_store.specs.Deeds.{effect_of};
ghost use Rattle.bl_ctree_store.specs.Seen.{setting_in};
ghost use Rattle.bl_ctree_enabled.specs.Spots.{spot_of};
ghost use Rattle.bl_ctree_run.specs.inner.Spots.{own, spot_told, told_all, told_point, told_run, telling};

use bl_ctree::copying::position;
use bl_ctree::node::{At, Branch, Node, Phase};
use bl_ctree::settle::{are_done, are_settled, is_nil};
use bl_ctree_enabled::{Effect, Point};
use bl_ctree_store::callee::begun_by;
use bl_ctree_store::home::append_homes;
use bl_ctree_store::{Deed, Setting};
use bl_effects::mentions::{arguments, expr, exprs, indices, optional};
use bl_effects::sets::set_of;
use bl_tree::tree::{Expr, Stmt, StmtKind};
use bl_tree::{List, NoMemory, Place, Static};
use std::alloc::Global;

/// What a node of a tree can do itself.
#[derive(Drop)]
pub struct Act<'a> {
    /// That of its statement.
    pub place: Place,
    pub instance: u32,
    pub effect: Effect<'a>,
    /// What it reads.
    pub reads: List<Static>,
}

fn asks<'a>(alloc: Global, i: u32, place: Place, e: &'a Expr) -> Result<Option<Act<'a>>, NoMemory>
    ensures { IfOk result (λ act. told_all act ≡ telling place i (Asks e.now)) }
{
    let mut reads = List::new(alloc);
    expr(alloc, e, &mut reads)?;
    Ok(Some(Act {
        place,
        instance: i,
        effect: Effect::Asks(e),
        reads,
    }))
}

/// What a node does without a test, and without reading.
fn does<'a>(alloc: Global, i: u32, place: Place, deed: Deed<'a>) -> Option<Act<'a>>
    ensures { told_all result ≡ record { place = place; instance = i; effect = effect_of deed.entry; paths = [] } ∷ [] }
{
    Some(Act {
        place,
        instance: i,
        effect: Effect::Does(deed),
        reads: List::new(alloc),
    })
}

fn copies<'a>(
    alloc: Global,
    i: u32,
    place: Place,
    callee: u32,
    inputs: &'a [Expr],
) -> Result<Option<Act<'a>>, NoMemory>
    ensures { IfOk result (λ act. told_all act ≡ telling place i (Copies callee inputs.now)) }
{
    let mut reads = List::new(alloc);
    exprs(alloc, inputs, &mut reads)?;
    Ok(Some(Act {
        place,
        instance: i,
        effect: Effect::Does(Deed::Copies(callee, inputs)),
        reads,
    }))
}

/// An act of a statement that reads these paths.
fn acts<'a>(i: u32, s: &'a Stmt, reads: List<Static>) -> Option<Act<'a>>
    ensures { told_all result ≡ record { place = (out-Stmt s.now).place; instance = i; effect = Acts s.now; paths = set_of reads } ∷ [] }
{
    Some(Act {
        place: s.place,
        instance: i,
        effect: Effect::Does(Deed::Acts(s)),
        reads: set_of(reads),
    })
}

fn runs<'a>(
    alloc: Global,
    w: &Setting<'a>,
    i: u32,
    place: Place,
    inputs: &'a [Expr],
) -> Result<Option<Act<'a>>, NoMemory>
    ensures { IfOk result (λ act. told_all act ≡ told_run (setting_in w.now) i place inputs.now) }
{
    match begun_by(w, i, place) {
        None => Ok(None),
        Some(callee) => copies(alloc, i, place, callee.instance, inputs),
    }
}

/// The point of a statement that is to begin.
fn begins<'a>(
    alloc: Global,
    w: &Setting<'a>,
    i: u32,
    at: &At<'a>,
) -> Result<Option<Act<'a>>, NoMemory>
    ensures { IfOk result (λ act. told_all act ≡ map told_point (begins (setting_in w.now) i (located at.now) (kind_of (located at.now)))) }
{
    let s = at.stmt;
    let mut reads = List::new(alloc);
    match &s.what {
        StmtKind::Declare(_, initial) => {
            optional(alloc, initial, &mut reads)?;
            Ok(acts(i, s, reads))
        }
        StmtKind::Assign(path, e) => {
            indices(alloc, path, &mut reads)?;
            expr(alloc, e, &mut reads)?;
            Ok(acts(i, s, reads))
        }
        StmtKind::Call(_, inputs, outputs) => {
            arguments(alloc, inputs, outputs, &mut reads)?;
            Ok(acts(i, s, reads))
        }
        StmtKind::Return(e) => {
            optional(alloc, e, &mut reads)?;
            Ok(acts(i, s, reads))
        }
        StmtKind::Await(_)
        | StmtKind::Cobegin(_)
        | StmtKind::When(_, _, _)
        | StmtKind::Repeat(_)
        | StmtKind::Until(_, _) => Ok(does(alloc, i, s.place, Deed::Silent)),
        StmtKind::While(e, _) => asks(alloc, i, s.place, e),
        StmtKind::If(arms, _) => match arms.as_slice() {
            [] => Ok(None),
            [arm, ..] => asks(alloc, i, s.place, &arm.test),
        },
        StmtKind::Run(_, _, inputs, _) => runs(alloc, w, i, s.place, inputs),
    }
}

fn tests<'a>(alloc: Global, i: u32, at: &At<'a>) -> Result<Option<Act<'a>>, NoMemory>
    ensures { IfOk result (λ act. told_all act ≡ map told_point (tests i (located at.now) (kind_of (located at.now)))) }
{
    match &at.stmt.what {
        StmtKind::Await(e) => asks(alloc, i, at.stmt.place, e),
        _ => Ok(None),
    }
}

fn turns_on<'a>(alloc: Global, i: u32, at: &At<'a>) -> Result<Option<Act<'a>>, NoMemory>
    ensures { IfOk result (λ act. told_all act ≡ map told_point (turns_on i (located at.now) (kind_of (located at.now)))) }
{
    match &at.stmt.what {
        StmtKind::Until(_, e) => asks(alloc, i, at.stmt.place, e),
        _ => Ok(None),
    }
}

fn checks<'a>(
    alloc: Global,
    i: u32,
    at: &At<'a>,
    stood: bool,
    inner: &Node<'a>,
) -> Result<Option<Act<'a>>, NoMemory>
    ensures { IfOk result (λ act. told_all act ≡ map told_point (checks i (located at.now) stood (control_of inner.now) (kind_of (located at.now)))) }
{
    match &at.stmt.what {
        StmtKind::When(_, e, _) => asks(alloc, i, at.stmt.place, e),
        _ => Ok(None),
    }
}

fn copying<'a>(
    alloc: Global,
    i: u32,
    at: &At<'a>,
    callee: u32,
    stood: bool,
    inner: &Node<'a>,
) -> Result<Option<Act<'a>>, NoMemory>
    ensures { IfOk result (λ act. told_all act
        ≡ map told_point (copying i (located at.now) callee stood (control_of inner.now) (kind_of (located at.now)))) }
{
    match &at.stmt.what {
        StmtKind::Run(_, _, inputs, _) => copies(alloc, i, at.stmt.place, callee, inputs),
        _ => Ok(None),
    }
}

fn giving<'a>(alloc: Global, i: u32, at: &At<'a>, callee: u32) -> Option<Act<'a>>
    ensures { told_all result ≡ map told_point (giving i (located at.now) callee (kind_of (located at.now))) }
{
    match &at.stmt.what {
        StmtKind::Run(target, _, _, _) => {
            does(alloc, i, at.stmt.place, Deed::Gives(callee, target))
        }
        _ => None,
    }
}

fn joining<'a>(alloc: Global, i: u32, at: &At<'a>, branches: &[Branch]) -> Option<Act<'a>>
    ensures { told_all result ≡ map told_point (joining i (located at.now) (branches_of (map seen_of branches.now))) }
{
    if are_settled(branches) && are_done(branches) {
        does(alloc, i, at.stmt.place, Deed::Silent)
    } else {
        None
    }
}

/// The point of a node itself, where that may act. Fails only for want of memory.
pub fn own<'a>(
    alloc: Global,
    w: &Setting<'a>,
    i: u32,
    node: &Node<'a>,
) -> Result<Option<Act<'a>>, NoMemory>
    ensures { IfOk result (λ act. told_all act ≡ map told_point (own (setting_in w.now) i (control_of node.now))) }
{
    match node {
        Node::Nil | Node::Wait(_) | Node::Idle(_) | Node::Seq(_, _) => Ok(None),
        Node::Test(s) => tests(alloc, i, s),
        Node::Do(s) => begins(alloc, w, i, s),
        Node::Further(left) => asks(alloc, i, left.arm.test.place, &left.arm.test),
        Node::Turn(s) => turns_on(alloc, i, s),
        Node::Par(s, _, branches) => Ok(joining(alloc, i, s, branches)),
        Node::Guard(s, phase, stood, inner) => match phase {
            Phase::Check => checks(alloc, i, s, *stood, inner),
            Phase::Body => Ok(ending(alloc, i, s, inner)),
        },
        Node::Run(s, callee, phase, stood, inner) => match phase {
            Phase::Check => copying(alloc, i, s, *callee, *stood, inner),
            Phase::Body => Ok(run_ending(alloc, i, s, *callee, inner)),
        },
    }
}

/// A guard ends where its body has ended.
fn ending<'a>(alloc: Global, i: u32, at: &At<'a>, inner: &Node) -> Option<Act<'a>>
    ensures { told_all result ≡ map told_point (if is_nil (control_of inner.now) then sure i (located at.now) Silent Nil else []) }
{
    if is_nil(inner) {
        does(alloc, i, at.stmt.place, Deed::Silent)
    } else {
        None
    }
}

fn run_ending<'a>(alloc: Global, i: u32, at: &At<'a>, callee: u32, inner: &Node) -> Option<Act<'a>>
    ensures { told_all result ≡ map told_point (if is_nil (control_of inner.now) then giving i (located at.now) callee (kind_of (located at.now)) else []) }
{
    if is_nil(inner) {
        giving(alloc, i, at, callee)
    } else {
        None
    }
}

/// Appends the point of a node itself.
pub fn push<'a>(
    alloc: Global,
    w: &Setting<'a>,
    path: &[usize],
    act: Option<Act<'a>>,
    into: &mut List<Point<'a>>,
) -> Result<(), NoMemory>
    ensures { OnOk result (map spot_of into.new ≡ map spot_of into.old ++ map (spot_told (setting_in w.now) path.now) (told_all act.entry)) }
{
    let Some(act) = act else {
        return Ok(());
    };
    let Act {
        place,
        instance,
        effect,
        reads,
    } = act;
    let mut homes = List::new(alloc);
    append_homes(alloc, w, instance, &reads, &mut homes)?;
    into.push(Point {
        place,
        instance,
        effect,
        reads: homes,
        path: position(alloc, path)?,
    })?;
    Ok(())
}
