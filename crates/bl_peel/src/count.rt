//! How many statements a body becomes, before any is made.

ghost use Rattle.std.specs.Prelude.{◌≡◌, map};
ghost use Rattle.bl_tree.specs.declared.place.Place.{Place as APlace};
ghost use Rattle.bl_peel.specs.Peeled.{peeling};
ghost use Rattle.bl_peel.specs.inner.Parts.{count_alone, count_around, count_beside, count_cobegin, count_repeated, count_tested, count_then};
ghost use Rattle.bl_peel.specs.inner.Parts.{counted_arm, counted_arms, counted_block, counted_branches, peeled_count};
ghost use Rattle.bl_peel.specs.inner.Parts.{peeling_of_arm, peeling_of_branch, peeling_of_kind};

use crate::ends::Ends;
use bl_tree::tree::{Arm, Branch, Stmt, StmtKind};

/// How many statements a part of a body becomes, as far as 64 bits go.
#[derive(Clone, Copy)]
pub struct Count {
    /// Outside of first turns.
    pub deep: u64,
    /// Where it begins a branch.
    pub front: u64,
    /// Whether the part may end in its first tick.
    pub instant: bool,
}

/// How many statements the branches of a `cobegin` become, as far as 64 bits go.
#[derive(Clone, Copy)]
pub struct BranchesCount {
    pub count: u64,
    /// Whether the `cobegin` may end in its first tick.
    pub instant: bool,
}

/// A statement behind others.
fn followed(before: Count, next: Count) -> Count
    ensures { result ≡ count_then before next }
{
    let front = if before.instant {
        next.front
    } else {
        next.deep
    };
    Count {
        deep: before.deep.saturating_add(next.deep),
        front: before.front.saturating_add(front),
        instant: before.instant & next.instant,
    }
}

/// An arm beside others.
fn beside(before: Count, next: Count) -> Count
    ensures { result ≡ count_beside before next }
{
    Count {
        deep: before.deep.saturating_add(next.deep),
        front: before.front.saturating_add(next.front),
        instant: before.instant | next.instant,
    }
}

/// A statement without blocks.
fn alone(instant: bool) -> Count
    ensures { result ≡ count_alone instant }
{
    Count {
        deep: 1,
        front: 1,
        instant,
    }
}

/// A statement around a block.
fn around(body: Count) -> Count
    ensures { result ≡ count_around body }
{
    Count {
        deep: body.deep.saturating_add(1),
        front: body.front.saturating_add(1),
        instant: body.instant,
    }
}

/// A `cobegin` of branches.
fn cobegin(branches: BranchesCount) -> Count
    ensures { result ≡ count_cobegin branches }
{
    let count = branches.count.saturating_add(1);
    Count {
        deep: count,
        front: count,
        instant: branches.instant,
    }
}

/// A loop without a test, behind its first turn.
fn repeated(body: Count) -> Count
    ensures { result ≡ count_repeated body }
{
    let deep = body.deep.saturating_add(1);
    Count {
        deep,
        front: body.front.saturating_add(deep),
        instant: false,
    }
}

/// A loop with a test, which its first turn has too.
fn tested(body: Count, instant: bool) -> Count
    ensures { result ≡ count_tested body instant }
{
    let deep = body.deep.saturating_add(1);
    let test = deep.saturating_add(1);
    Count {
        deep,
        front: body.front.saturating_add(test),
        instant,
    }
}

#[cycle(counting)]
fn in_statement(s: &Stmt) -> Count
    ensures { result ≡ peeled_count (peeling s.now) }
{
    in_kind(&s.what)
}

/// How many statements a statement of the kind becomes.
#[cycle(counting)]
fn in_kind(what: &StmtKind) -> Count
    ensures { (place : APlace) → result ≡ peeled_count (peeling_of_kind what.now place) }
{
    match what {
        StmtKind::Declare(_, _)
        | StmtKind::Assign(_, _)
        | StmtKind::Call(_, _, _)
        | StmtKind::Return(_) => alone(true),
        StmtKind::Await(_) | StmtKind::Run(_, _, _, _) => alone(false),
        StmtKind::If(arms, other) => {
            let choices = in_arms(arms);
            around(beside(choices, in_block(other)))
        }
        StmtKind::Cobegin(branches) => cobegin(in_branches(branches)),
        StmtKind::When(_, _, body) => around(in_block(body)),
        StmtKind::Repeat(body) => repeated(in_block(body)),
        StmtKind::Until(body, _) => {
            let body = in_block(body);
            tested(body, body.instant)
        }
        StmtKind::While(_, body) => tested(in_block(body), true),
    }
}

/// How many statements the block becomes.
#[cycle(counting)]
pub fn in_block(body: &[Stmt]) -> Count
    ensures { result ≡ counted_block (map peeling body.now) }
{
    let mut all = Count {
        deep: 0,
        front: 0,
        instant: true,
    };
    for s in body {
        all = followed(all, in_statement(s));
    }
    all
}

#[cycle(counting)]
fn in_arm(arm: &Arm) -> Count
    ensures { result ≡ counted_arm (peeling_of_arm arm.now) }
{
    in_block(&arm.body)
}

/// How many statements the arms become, and whether some arm may end in its first tick.
#[cycle(counting)]
fn in_arms(arms: &[Arm]) -> Count
    ensures { result ≡ counted_arms (map peeling_of_arm arms.now) }
{
    let mut all = Count {
        deep: 0,
        front: 0,
        instant: false,
    };
    for arm in arms {
        all = beside(all, in_arm(arm));
    }
    all
}

#[cycle(counting)]
fn in_branches(branches: &[Branch]) -> BranchesCount
    ensures { result ≡ counted_branches (map peeling_of_branch branches.now) }
{
    let mut count = 0u64;
    let mut ends = Ends::new();
    for branch in branches {
        let body = in_block(&branch.body);
        count = count.saturating_add(body.front);
        ends = ends.with(branch.weak, body.instant);
    }
    BranchesCount {
        count,
        instant: ends.at_once(),
    }
}
