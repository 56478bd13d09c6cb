//! How many statements a unit has.

ghost use Rattle.std.specs.Prelude.{◌≡◌, map};
ghost use Rattle.bl_tree.specs.Reduce.{total};
ghost use Rattle.bl_limits_measures.specs.Saturated.{saturated};
ghost use Rattle.bl_limits_measures.specs.Statements.{cell_statements_in, cell_statements_in_arm, cell_statements_in_block, cell_statements_in_branch};

use bl_tree::tree::{Arm, Branch, Stmt, StmtKind};

/// The statement and those in its blocks, with one more for each `elseif` and each branch.
#[cycle(counting)]
fn in_statement(s: &Stmt) -> u64
    ensures { result ≡ saturated (cell_statements_in s.now) }
{
    match &s.what {
        StmtKind::Declare(_, _)
        | StmtKind::Assign(_, _)
        | StmtKind::Call(_, _, _)
        | StmtKind::Await(_)
        | StmtKind::Run(_, _, _, _)
        | StmtKind::Return(_) => 1,
        StmtKind::If(arms, other) => {
            let further = arms.len().saturating_sub(1) as u64;
            let first = further.saturating_add(1);
            let inside = in_arms(arms).saturating_add(in_block(other));
            first.saturating_add(inside)
        }
        StmtKind::Cobegin(branches) => in_branches(branches).saturating_add(1),
        StmtKind::When(_, _, body)
        | StmtKind::Repeat(body)
        | StmtKind::Until(body, _)
        | StmtKind::While(_, body) => in_block(body).saturating_add(1),
    }
}

/// How many statements the block has, at any depth.
#[cycle(counting)]
pub fn in_block(body: &[Stmt]) -> u64
    ensures { result ≡ saturated (cell_statements_in_block body.now) }
{
    let mut count = 0u64;
    for s in body {
        count = count.saturating_add(in_statement(s));
    }
    count
}

#[cycle(counting)]
fn in_arms(arms: &[Arm]) -> u64
    ensures { result ≡ saturated (total (map cell_statements_in_arm arms.now)) }
{
    let mut count = 0u64;
    for arm in arms {
        count = count.saturating_add(in_block(&arm.body));
    }
    count
}

/// Each branch counts one more.
#[cycle(counting)]
fn in_branches(branches: &[Branch]) -> u64
    ensures { result ≡ saturated (total (map cell_statements_in_branch branches.now)) }
{
    let mut count = 0u64;
    for branch in branches {
        let inside = in_block(&branch.body).saturating_add(1);
        count = count.saturating_add(inside);
    }
    count
}
