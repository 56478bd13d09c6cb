//! Whether statements may end in the tick in which they begin.

ghost use Rattle.std.specs.Prelude.{◌≡◌, map};
ghost use Rattle.bl_tree.specs.Instant.{branches_instant, instant, is_instant_block};
ghost use Rattle.bl_tree.specs.Reduce.{any_of};
ghost use Rattle.bl_graph.specs.inner.Instants.{ends_of_branch, instant_of_arm, instant_of_kind};

use bl_tree::tree::{Arm, Branch, Stmt, StmtKind};

/// Whether a block may.
#[cycle(instants)]
pub fn is_instant_block(body: &[Stmt]) -> bool
    ensures { result ≡ is_instant_block body.now }
{
    let mut all = true;
    for s in body {
        all &= instant(s);
    }
    all
}

/// Whether a statement may.
#[cycle(instants)]
fn instant(s: &Stmt) -> bool
    ensures { result ≡ instant s.now }
{
    kind_instant(&s.what)
}

#[cycle(instants)]
fn kind_instant(what: &StmtKind) -> bool
    ensures { result ≡ instant_of_kind what.now }
{
    match what {
        StmtKind::Declare(_, _)
        | StmtKind::Assign(_, _)
        | StmtKind::Call(_, _, _)
        | StmtKind::While(_, _)
        | StmtKind::Return(_) => true,
        StmtKind::Await(_) | StmtKind::Run(_, _, _, _) | StmtKind::Repeat(_) => false,
        StmtKind::If(arms, other) => {
            let some = some_arm(arms);
            let rest = is_instant_block(other);
            some | rest
        }
        StmtKind::Cobegin(branches) => branches_instant(branches),
        StmtKind::When(_, _, body) | StmtKind::Until(body, _) => is_instant_block(body),
    }
}

#[cycle(instants)]
fn some_arm(arms: &[Arm]) -> bool
    ensures { result ≡ any_of (map instant_of_arm arms.now) }
{
    let mut some = false;
    for arm in arms {
        some |= is_instant_block(&arm.body);
    }
    some
}

/// Whether branches may let their `cobegin` end in the tick in which it begins.
#[cycle(instants)]
pub fn branches_instant(all: &[Branch]) -> bool
    ensures { result ≡ branches_instant (map ends_of_branch all.now) }
{
    let mut is_strong = false;
    let mut strong = true;
    let mut some = false;
    for branch in all {
        let ends = is_instant_block(&branch.body);
        is_strong |= !branch.weak;
        strong &= branch.weak | ends;
        some |= ends;
    }
    if is_strong { strong } else { some }
}
