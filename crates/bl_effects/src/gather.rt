//! Effects are gathered in one pass, from the innermost statements outwards.

ghost use Rattle.std.specs.Prelude.{◌≡◌, ◌∷◌, [], ◌++◌, map, IfOk, OnOk, option_map};
ghost use Rattle.bl_tree.specs.declared.tree.Arm.{out-Arm};
ghost use Rattle.bl_tree.specs.declared.tree.Branch.{out-Branch};
ghost use Rattle.bl_tree.specs.Reduce.{all_of, any_of, joined};
ghost use Rattle.bl_tree.specs.Effects.{argument_mentions, optional_mentions, reads, target_mentions, target_static, writes};
ghost use Rattle.bl_effects.specs.inner.Gathered.{Gathers, children_of_kind, ends_of_branch, instant_of_arm, instant_of_kind, reads_of_arm};
ghost use Rattle.bl_effects.specs.inner.Gathered.{reads_of_branch, reads_of_kind, writes_of_arm, writes_of_branch, writes_of_kind};
ghost use Rattle.bl_tree.specs.Instant.{branches_instant, instant};
ghost use Rattle.bl_tree.specs.Static.{mentions, path_mentions, static_of};

use crate::mentions::{arguments, expr, indices, optional, static_of, statics};
use crate::sets::set_of;
use crate::table::{Effects, Sets};
use bl_tree::static_path::append_copies;
use bl_tree::tree::{Arm, Branch, Expr, Path, Stmt, StmtKind};
use bl_tree::{List, NoMemory, Static};
use std::alloc::Global;

/// What the statements of the blocks that are open read and write.
#[derive(Drop)]
pub struct Paths {
    pub reads: List<Static>,
    pub writes: List<Static>,
}

/// A call or `run` reads its inputs and outputs, and writes its outputs.
fn call(alloc: Global, inputs: &[Expr], outputs: &[Path], paths: &mut Paths) -> Result<(), NoMemory>
    ensures reads { OnOk result (paths.new.reads ≡ paths.old.reads ++ argument_mentions inputs.now outputs.now) }
    ensures writes { OnOk result (paths.new.writes ≡ paths.old.writes ++ map static_of outputs.now) }
{
    arguments(alloc, inputs, outputs, &mut paths.reads)?;
    statics(alloc, outputs, &mut paths.writes)
}

/// The target of a `run`: its indices are read, and it is written.
fn target(alloc: Global, path: &Option<Path>, paths: &mut Paths) -> Result<(), NoMemory>
    ensures reads { OnOk result (paths.new.reads ≡ paths.old.reads ++ target_mentions path.now) }
    ensures writes { OnOk result (paths.new.writes ≡ paths.old.writes ++ target_static path.now) }
{
    if let Some(path) = path {
        indices(alloc, path, &mut paths.reads)?;
        paths.writes.push(static_of(alloc, path)?)?;
    }
    Ok(())
}

/// The whole variable.
fn whole(alloc: Global, root: u32) -> Static
    ensures { result ≡ record { root = root; fields = [] } }
{
    Static {
        root,
        fields: List::new(alloc),
    }
}

/// Gathers the effects of the statements of a block; answers whether the block may end in the tick in which it begins.
#[cycle(gathering)]
pub fn block(
    alloc: Global,
    body: &[Stmt],
    table: &mut Effects,
    paths: &mut Paths,
) -> Result<bool, NoMemory>
    ensures instant { IfOk result (λ ends. ends ≡ all_of (map instant body.now)) }
    ensures gathers { OnOk result (Gathers (joined (map reads body.now)) (joined (map writes body.now)) body.now paths.old paths.new table.old table.new) }
{
    let mut all = true;
    for s in body {
        all &= statement(alloc, s, table, paths)?;
    }
    Ok(all)
}

#[cycle(gathering)]
fn statement(
    alloc: Global,
    s: &Stmt,
    table: &mut Effects,
    paths: &mut Paths,
) -> Result<bool, NoMemory>
    ensures instant { IfOk result (λ ends. ends ≡ instant s.now) }
    ensures gathers { OnOk result (Gathers (reads s.now) (writes s.now) (s.now ∷ []) paths.old paths.new table.old table.new) }
{
    let mut inner = Paths {
        reads: List::new(alloc),
        writes: List::new(alloc),
    };
    let instant = parts(alloc, &s.what, table, &mut inner)?;
    let Paths { reads, writes } = inner;
    let reads = set_of(reads);
    let writes = set_of(writes);
    append_copies(alloc, &reads, &mut paths.reads)?;
    append_copies(alloc, &writes, &mut paths.writes)?;
    table.insert(
        s.place,
        Sets {
            reads,
            writes,
            instant,
        },
    )?;
    Ok(instant)
}

/// Gathers the effects of what stands in a statement.
#[cycle(gathering)]
fn parts(
    alloc: Global,
    what: &StmtKind,
    table: &mut Effects,
    paths: &mut Paths,
) -> Result<bool, NoMemory>
    ensures instant { IfOk result (λ ends. ends ≡ instant_of_kind what.now) }
    ensures gathers { OnOk result (Gathers (reads_of_kind what.now) (writes_of_kind what.now) (children_of_kind what.now) paths.old paths.new table.old
        table.new) }
{
    match what {
        StmtKind::Declare(k, initial) => {
            optional(alloc, initial, &mut paths.reads)?;
            paths.writes.push(whole(alloc, *k))?;
            Ok(true)
        }
        StmtKind::Assign(path, e) => {
            indices(alloc, path, &mut paths.reads)?;
            expr(alloc, e, &mut paths.reads)?;
            paths.writes.push(static_of(alloc, path)?)?;
            Ok(true)
        }
        StmtKind::Call(_, inputs, outputs) => {
            call(alloc, inputs, outputs, paths)?;
            Ok(true)
        }
        StmtKind::Await(e) => {
            expr(alloc, e, &mut paths.reads)?;
            Ok(false)
        }
        StmtKind::Run(path, _, inputs, outputs) => {
            target(alloc, path, paths)?;
            call(alloc, inputs, outputs, paths)?;
            Ok(false)
        }
        StmtKind::If(arms, other) => {
            let some = choices(alloc, arms, table, paths)?;
            let rest = block(alloc, other, table, paths)?;
            Ok(some | rest)
        }
        StmtKind::Cobegin(all) => branches(alloc, all, table, paths),
        StmtKind::When(_, e, body) => {
            expr(alloc, e, &mut paths.reads)?;
            block(alloc, body, table, paths)
        }
        StmtKind::Repeat(body) => {
            block(alloc, body, table, paths)?;
            Ok(false)
        }
        StmtKind::Until(body, e) => {
            let ends = block(alloc, body, table, paths)?;
            expr(alloc, e, &mut paths.reads)?;
            Ok(ends)
        }
        StmtKind::While(e, body) => {
            expr(alloc, e, &mut paths.reads)?;
            block(alloc, body, table, paths)?;
            Ok(true)
        }
        StmtKind::Return(e) => {
            optional(alloc, e, &mut paths.reads)?;
            Ok(true)
        }
    }
}

/// Answers whether some arm may end in the tick in which it begins.
#[cycle(gathering)]
fn choices(
    alloc: Global,
    arms: &[Arm],
    table: &mut Effects,
    paths: &mut Paths,
) -> Result<bool, NoMemory>
    ensures instant { IfOk result (λ ends. ends ≡ any_of (map instant_of_arm arms.now)) }
    ensures gathers { OnOk result (Gathers (joined (map reads_of_arm arms.now)) (joined (map writes_of_arm arms.now))
        (joined (map (λ arm. (out-Arm arm).body) arms.now)) paths.old paths.new table.old table.new) }
{
    let mut some = false;
    for arm in arms {
        expr(alloc, &arm.test, &mut paths.reads)?;
        some |= block(alloc, &arm.body, table, paths)?;
    }
    Ok(some)
}

/// Answers whether the branches may let their `cobegin` end in the tick in which it begins.
#[cycle(gathering)]
fn branches(
    alloc: Global,
    all: &[Branch],
    table: &mut Effects,
    paths: &mut Paths,
) -> Result<bool, NoMemory>
    ensures instant { IfOk result (λ ends. ends ≡ branches_instant (map ends_of_branch all.now)) }
    ensures gathers { OnOk result (Gathers (joined (map reads_of_branch all.now)) (joined (map writes_of_branch all.now))
        (joined (map (λ branch. (out-Branch branch).body) all.now)) paths.old paths.new table.old table.new) }
{
    let mut is_strong = false;
    let mut strong = true;
    let mut some = false;
    for branch in all {
        let ends = block(alloc, &branch.body, table, paths)?;
        is_strong |= !branch.weak;
        strong &= branch.weak | ends;
        some |= ends;
    }
    Ok(if is_strong { strong } else { some })
}
