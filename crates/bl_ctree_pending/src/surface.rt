//! What statements that begin can write before they pause.

ghost use Rattle.std.specs.Prelude.{◌≡◌, ◌++◌, map, IfOk, OnOk};
ghost use Rattle.bl_tree.specs.Reduce.{any_of, joined};
ghost use Rattle.bl_tree.specs.Instant.{branches_instant};
ghost use Rattle.bl_tree.specs.Static.{static_of, whole};
ghost use Rattle.bl_effects.specs.Surface.{block_instant, block_surface, surface_of};
ghost use Rattle.bl_ctree_pending.specs.inner.Surfaces.{surface_of_arm, surface_of_branch};

use bl_effects::mentions::{static_of, statics};
use bl_tree::tree::{Arm, Branch, Stmt, StmtKind};
use bl_tree::{List, NoMemory, Static};
use std::alloc::Global;

/// The whole variable.
fn whole(alloc: Global, root: u32) -> Static
    ensures { result ≡ whole root }
{
    Static {
        root,
        fields: List::new(alloc),
    }
}

/// Appends what a statement that begins can write before it pauses; answers whether it may end in the tick in which it begins.
/// Fails only for want of memory, as all that follows.
#[cycle(surfaces)]
pub fn statement(alloc: Global, s: &Stmt, into: &mut List<Static>) -> Result<bool, NoMemory>
    ensures ends { IfOk result (λ ends. ends ≡ (surface_of s.now).instant) }
    ensures writes { OnOk result (into.new ≡ into.old ++ (surface_of s.now).writes) }
{
    match &s.what {
        StmtKind::Declare(k, _) => {
            into.push(whole(alloc, *k))?;
            Ok(true)
        }
        StmtKind::Assign(path, _) => {
            into.push(static_of(alloc, path)?)?;
            Ok(true)
        }
        StmtKind::Call(_, _, outputs) => {
            statics(alloc, outputs, into)?;
            Ok(true)
        }
        StmtKind::Await(_) => Ok(false),
        StmtKind::Run(_, _, _, outputs) => {
            statics(alloc, outputs, into)?;
            Ok(false)
        }
        StmtKind::If(all, other) => {
            let some = arms(alloc, all, into)?;
            let rest = block(alloc, other, into)?;
            Ok(some | rest)
        }
        StmtKind::Cobegin(all) => branches(alloc, all, into),
        StmtKind::When(_, _, body) | StmtKind::Until(body, _) => block(alloc, body, into),
        StmtKind::Repeat(body) => {
            block(alloc, body, into)?;
            Ok(false)
        }
        StmtKind::While(_, body) => {
            block(alloc, body, into)?;
            Ok(true)
        }
        StmtKind::Return(_) => Ok(true),
    }
}

/// The same of statements one after another: those behind one that pauses do not begin.
#[cycle(surfaces)]
pub fn block(alloc: Global, body: &[Stmt], into: &mut List<Static>) -> Result<bool, NoMemory>
    ensures ends { IfOk result (λ ends. ends ≡ block_instant (map surface_of body.now)) }
    ensures writes { OnOk result (into.new ≡ into.old ++ block_surface (map surface_of body.now)) }
{
    for s in body {
        if !statement(alloc, s, into)? {
            return Ok(false);
        }
    }
    Ok(true)
}

/// The same of the arms of an `if`: some one begins.
#[cycle(surfaces)]
pub fn arms(alloc: Global, all: &[Arm], into: &mut List<Static>) -> Result<bool, NoMemory>
    ensures ends { IfOk result (λ ends. ends ≡ any_of (map (λ arm. arm.instant) (map surface_of_arm all.now))) }
    ensures writes { OnOk result (into.new ≡ into.old ++ joined (map (λ arm. arm.writes) (map surface_of_arm all.now))) }
{
    let mut some = false;
    for arm in all {
        some |= block(alloc, &arm.body, into)?;
    }
    Ok(some)
}

/// The same of the branches of a `cobegin`.
#[cycle(surfaces)]
fn branches(alloc: Global, all: &[Branch], into: &mut List<Static>) -> Result<bool, NoMemory>
    ensures ends { IfOk result (λ ends. ends ≡ branches_instant (map (λ branch. branch.ends) (map surface_of_branch all.now))) }
    ensures writes { OnOk result (into.new ≡ into.old ++ joined (map (λ branch. branch.writes) (map surface_of_branch all.now))) }
{
    let mut is_strong = false;
    let mut strong = true;
    let mut some = false;
    for branch in all {
        let ends = block(alloc, &branch.body, into)?;
        is_strong |= !branch.weak;
        strong &= branch.weak | ends;
        some |= ends;
    }
    Ok(if is_strong { strong } else { some })
}
