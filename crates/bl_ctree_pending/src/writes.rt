//! What can still happen in a tree before its next pause. Only the tree is walked, and the statements in it that are to begin.

ghost use Rattle.std.specs.Prelude.{◌≡◌, ◌++◌, ◌&&◌, [], false, map, drop, IfOk, OnOk, if◌then◌else◌};
ghost use Rattle.bl_tree.specs.Effects.{target_static};
ghost use Rattle.bl_tree.specs.Instant.{instant};
ghost use Rattle.bl_effects.specs.Surface.{surface_of};
ghost use Rattle.bl_ctree.specs.Control.{Check, has_strong};
ghost use Rattle.bl_ctree.specs.Nodes.{branches_of, control_of, items_of, items_then, left_of_arms, located, phase_of, seen_of};
ghost use Rattle.bl_ctree.specs.Pending.{guard_may_end, is_reset, items_may_end, may_end, may_join, run_may_end};
ghost use Rattle.bl_ctree.specs.Positions.{stmt_kind};
ghost use Rattle.bl_ctree_pending.specs.Writes.{all_write_paths, anew_paths, items_paths, run_paths, surface_paths, write_paths};

use crate::surface::{arms, block, statement};
use bl_ctree::node::{Arms, At, Branch, Node, Phase, Rest, Then};
use bl_ctree::settle::{has_strong, is_settled};
use bl_effects::mentions::{static_of, statics};
use bl_tree::tree::{Guard, Path, Stmt, StmtKind};
use bl_tree::{List, NoMemory, Static};
use std::alloc::Global;

/// Appends what an `if` whose first arms are passed can write before it pauses; answers whether it may end at once.
fn left(alloc: Global, left: &Arms, into: &mut List<Static>) -> Result<bool, NoMemory>
    ensures ends { IfOk result (λ ends. ends ≡ instant (left_of_arms left.now).stmt) }
    ensures writes { OnOk result (into.new ≡ into.old ++ surface_paths (left_of_arms left.now)) }
{
    let first = block(alloc, &left.arm.body, into)?;
    let some = arms(alloc, left.arms, into)?;
    let rest = block(alloc, left.other, into)?;
    Ok(first | some | rest)
}

/// The same of a statement.
fn surface(alloc: Global, s: &Stmt, into: &mut List<Static>) -> Result<bool, NoMemory>
    ensures ends { IfOk result (λ ends. ends ≡ instant s.now) }
    ensures writes { OnOk result (into.new ≡ into.old ++ (surface_of s.now).writes) }
{
    statement(alloc, s, into)
}

/// The same of what follows a block.
fn following(alloc: Global, next: &Then, into: &mut List<Static>) -> Result<bool, NoMemory>
    ensures ends { IfOk result (λ ends. ends ≡ items_may_end (items_then next.now)) }
    ensures writes { OnOk result (into.new ≡ into.old ++ items_paths (items_then next.now)) }
{
    match next {
        Then::Nothing => Ok(true),
        Then::Loop(at) => surface(alloc, at.stmt, into),
        Then::Until(at) => {
            surface(alloc, at.stmt, into)?;
            Ok(true)
        }
    }
}

fn left_in(body: &[Stmt], next: usize) -> &[Stmt]
    ensures { result.now ≡ drop next body.now }
{
    if next <= body.len() {
        &body[next..]
    } else {
        &[]
    }
}

fn items(alloc: Global, rest: &Rest, into: &mut List<Static>) -> Result<bool, NoMemory>
    ensures ends { IfOk result (λ ends. ends ≡ items_may_end (items_of rest.now)) }
    ensures writes { OnOk result (into.new ≡ into.old ++ items_paths (items_of rest.now)) }
{
    if block(alloc, left_in(rest.body, rest.next), into)? {
        following(alloc, &rest.then, into)
    } else {
        Ok(false)
    }
}

/// The whole sequence: what follows the tree counts where the tree may end.
fn follow(alloc: Global, ends: bool, rest: &Rest, into: &mut List<Static>) -> Result<bool, NoMemory>
    ensures ends { IfOk result (λ all. all ≡ (ends && items_may_end (items_of rest.now))) }
    ensures writes { OnOk result (into.new ≡ into.old ++ (if ends then items_paths (items_of rest.now) else [])) }
{
    if ends {
        items(alloc, rest, into)
    } else {
        Ok(false)
    }
}

fn is_reset(s: &Stmt) -> bool
    ensures { result ≡ is_reset (stmt_kind s.now) }
{
    match &s.what {
        StmtKind::When(guard, _, _) => *guard == Guard::Reset,
        _ => false,
    }
}

/// A guard whose condition is still to be tested, over a body that may end or not.
fn check(alloc: Global, at: &At, inner: bool, into: &mut List<Static>) -> Result<bool, NoMemory>
    ensures ends { IfOk result (λ ends. ends ≡ guard_may_end Check (located at.now) inner) }
    ensures writes { OnOk result (into.new ≡ into.old ++ anew_paths (located at.now) Check) }
{
    if is_reset(at.stmt) {
        let anew = surface(alloc, at.stmt, into)?;
        Ok(inner | anew)
    } else {
        Ok(true)
    }
}

fn target(alloc: Global, path: &Option<Path>, into: &mut List<Static>) -> Result<(), NoMemory>
    ensures { OnOk result (into.new ≡ into.old ++ target_static path.now) }
{
    if let Some(path) = path {
        into.push(static_of(alloc, path)?)?;
    }
    Ok(())
}

/// The outputs of a `run`, and its target where it may end.
fn outputs(alloc: Global, at: &At, ends: bool, into: &mut List<Static>) -> Result<(), NoMemory>
    ensures { OnOk result (into.new ≡ into.old ++ run_paths (located at.now) false ends) }
{
    match &at.stmt.what {
        StmtKind::Run(path, _, _, outputs) => {
            statics(alloc, outputs, into)?;
            if ends {
                target(alloc, path, into)
            } else {
                Ok(())
            }
        }
        _ => Ok(()),
    }
}

/// A `run` that is settled or not, and may end or not.
fn run(
    alloc: Global,
    at: &At,
    settled: bool,
    ends: bool,
    into: &mut List<Static>,
) -> Result<bool, NoMemory>
    ensures ends { IfOk result (λ all. all ≡ ends) }
    ensures writes { OnOk result (into.new ≡ into.old ++ run_paths (located at.now) settled ends) }
{
    if settled {
        return Ok(ends);
    }
    outputs(alloc, at, ends, into)?;
    Ok(ends)
}

/// Appends what the tree may still write in this tick; answers whether it may end in it.
#[cycle(pending)]
pub fn pending(alloc: Global, node: &Node, into: &mut List<Static>) -> Result<bool, NoMemory>
    ensures ends { IfOk result (λ ends. ends ≡ may_end (control_of node.now)) }
    ensures writes { OnOk result (into.new ≡ into.old ++ write_paths (control_of node.now)) }
{
    match node {
        Node::Nil | Node::Test(_) => Ok(true),
        Node::Wait(_) | Node::Idle(_) => Ok(false),
        Node::Do(s) => surface(alloc, s.stmt, into),
        Node::Further(arms) => left(alloc, arms, into),
        Node::Turn(s) => {
            surface(alloc, s.stmt, into)?;
            Ok(true)
        }
        Node::Seq(inner, rest) => {
            let ends = pending(alloc, inner, into)?;
            follow(alloc, ends, rest, into)
        }
        Node::Par(_, _, branches) => all_pending(alloc, branches, into),
        Node::Guard(s, phase, _, inner) => {
            let ends = pending(alloc, inner, into)?;
            match phase {
                Phase::Check => check(alloc, s, ends, into),
                Phase::Body => Ok(ends),
            }
        }
        Node::Run(s, _, phase, _, inner) => {
            let ends = run_ends(alloc, *phase, inner)?;
            run(alloc, s, is_settled(node), ends, into)
        }
    }
}

/// Whether a `run` may end. What its body writes goes by its outputs alone.
#[cycle(pending)]
fn run_ends(alloc: Global, phase: Phase, inner: &Node) -> Result<bool, NoMemory>
    ensures { IfOk result (λ ends. ends ≡ run_may_end (phase_of phase) (may_end (control_of inner.now))) }
{
    match phase {
        Phase::Check => Ok(true),
        Phase::Body => {
            let mut hidden = List::new(alloc);
            pending(alloc, inner, &mut hidden)
        }
    }
}

#[cycle(pending)]
fn all_pending(
    alloc: Global,
    branches: &[Branch],
    into: &mut List<Static>,
) -> Result<bool, NoMemory>
    ensures ends { IfOk result (λ ends. ends ≡ may_join (has_strong (branches_of (map seen_of branches.now))) (branches_of (map seen_of branches.now))) }
    ensures writes { OnOk result (into.new ≡ into.old ++ all_write_paths (branches_of (map seen_of branches.now))) }
{
    let mut strong = true;
    let mut some = false;
    for branch in branches {
        let ends = pending(alloc, &branch.tree, into)?;
        strong &= branch.weak | ends;
        some |= ends;
    }
    Ok(if has_strong(branches) { strong } else { some })
}
