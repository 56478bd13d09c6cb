//! Rule Instant: a loop of an activity whose body may end in the tick in which it begins.
#![tactic(auto, using(crate::proofs::FirstLemmas::firsts))]

ghost use Rattle.std.specs.Prelude.{◌≡◌, map};
ghost use Rattle.bl_tree.specs.Typing.{is_activity};
ghost use Rattle.bl_conflict.specs.inner.Failures.{branches_loops, instant_failures, least_by, loops_of, loops_of_arm, loops_of_branch, of_loop};
ghost use Rattle.bl_tree.specs.Instant.{branches_instant};
ghost use Rattle.bl_effects.specs.Rules.{block_ends, block_loops, loop_places, loops_in};
ghost use Rattle.bl_tree.specs.Reduce.{any_of};

use bl_tree::rule::lesser;
use bl_tree::tree::{Arm, Branch, Stmt, StmtKind, Unit, UnitKind};
use bl_tree::{Failure, Further, Place, Rule};

/// What is known of a part of the tree: whether it may end in the tick in which it begins, and the first loop so far that
/// fails.
#[derive(Clone, Copy)]
pub struct Looked {
    pub instant: bool,
    pub best: Option<Failure>,
}

pub fn is_activity(kind: UnitKind) -> bool
    ensures { result ≡ is_activity kind }
{
    match kind {
        UnitKind::Function => false,
        UnitKind::Activity => true,
    }
}

/// The first so far, or the first of the loops of activities that fail.
pub fn first(units: &[Unit], best: Option<Failure>) -> Option<Failure>
    ensures { result ≡ least_by of_loop best (instant_failures units.now) }
{
    let mut best = best;
    for unit in units {
        best = judge(unit, best);
    }
    best
}

fn judge(unit: &Unit, best: Option<Failure>) -> Option<Failure>
    ensures { result ≡ least_by of_loop best (loops_of unit.now) }
{
    if is_activity(unit.kind) {
        block(&unit.body, best).best
    } else {
        best
    }
}

#[cycle(loops)]
pub fn block(body: &[Stmt], best: Option<Failure>) -> Looked
    ensures instant { result.instant ≡ block_ends (map loops_in body.now) }
    ensures best { result.best ≡ least_by of_loop best (block_loops (map loops_in body.now)) }
{
    let mut all = true;
    let mut best = best;
    for s in body {
        let looked = statement(s, best);
        all &= looked.instant;
        best = looked.best;
    }
    Looked { instant: all, best }
}

#[cycle(loops)]
fn statement(s: &Stmt, best: Option<Failure>) -> Looked
    ensures instant { result.instant ≡ (loops_in s.now).instant }
    ensures best { result.best ≡ least_by of_loop best ((loops_in s.now).places) }
{
    match &s.what {
        StmtKind::Declare(_, _)
        | StmtKind::Assign(_, _)
        | StmtKind::Call(_, _, _)
        | StmtKind::Return(_) => Looked {
            instant: true,
            best,
        },
        StmtKind::Await(_) | StmtKind::Run(_, _, _, _) => Looked {
            instant: false,
            best,
        },
        StmtKind::If(all, other) => {
            let some = arms(all, best);
            let rest = block(other, some.best);
            Looked {
                instant: some.instant | rest.instant,
                best: rest.best,
            }
        }
        StmtKind::Cobegin(all) => branches(all, best),
        StmtKind::When(_, _, body) => block(body, best),
        StmtKind::Repeat(body) => Looked {
            instant: false,
            best: looping(s.place, body, best).best,
        },
        StmtKind::Until(body, _) => looping(s.place, body, best),
        StmtKind::While(_, body) => Looked {
            instant: true,
            best: looping(s.place, body, best).best,
        },
    }
}

/// The body of the loop at the place, and then the loop itself.
#[cycle(loops)]
fn looping(at: Place, body: &[Stmt], best: Option<Failure>) -> Looked
    ensures instant { result.instant ≡ block_ends (map loops_in body.now) }
    ensures best { result.best ≡ least_by of_loop best (loop_places at (map loops_in body.now)) }
{
    let looked = block(body, best);
    if !looked.instant {
        return looked;
    }
    Looked {
        instant: true,
        best: lesser(looked.best, failing(at)),
    }
}

/// The loop at the place fails.
fn failing(at: Place) -> Failure
    ensures { result ≡ of_loop at }
{
    Failure {
        rule: Rule::Instant,
        at,
        further: Further::Nothing,
    }
}

/// Whether some arm may end in the tick in which it begins.
#[cycle(loops)]
fn arms(all: &[Arm], best: Option<Failure>) -> Looked
    ensures instant { result.instant ≡ any_of (map (λ arm. arm.instant) (map loops_of_arm all.now)) }
    ensures best { result.best ≡ least_by of_loop best (block_loops (map loops_of_arm all.now)) }
{
    let mut some = false;
    let mut best = best;
    for arm in all {
        let looked = block(&arm.body, best);
        some |= looked.instant;
        best = looked.best;
    }
    Looked {
        instant: some,
        best,
    }
}

/// Whether the branches may let their `cobegin` end in the tick in which it begins.
#[cycle(loops)]
fn branches(all: &[Branch], best: Option<Failure>) -> Looked
    ensures instant { result.instant ≡ branches_instant (map (λ branch. branch.ends) (map loops_of_branch all.now)) }
    ensures best { result.best ≡ least_by of_loop best (branches_loops (map loops_of_branch all.now)) }
{
    let mut is_strong = false;
    let mut strong = true;
    let mut some = false;
    let mut best = best;
    for branch in all {
        let looked = block(&branch.body, best);
        is_strong |= !branch.weak;
        strong &= branch.weak | looked.instant;
        some |= looked.instant;
        best = looked.best;
    }
    Looked {
        instant: if is_strong { strong } else { some },
        best,
    }
}
