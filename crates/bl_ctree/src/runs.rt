//! The `run` statements of a unit.

ghost use Rattle.std.specs.Prelude.{◌≡◌, ◌++◌, map, IfOk, OnOk, not, filter};
ghost use Rattle.bl_tree.specs.Reduce.{joined};
ghost use Rattle.bl_ctree.specs.Instances.{one_a_place, runs_in, runs_of, runs_in_arm, runs_in_branch};

use crate::instance::Run;
use crate::paths::statics_of;
use bl_tree::tree::{Arm, Branch, Stmt, StmtKind, Unit};
use bl_tree::{List, NoMemory};
use std::alloc::Global;

/// Appends the `run` statements in a statement, in source order.
#[cycle(finding)]
fn in_statement(alloc: Global, s: &Stmt, into: &mut List<Run>) -> Result<(), NoMemory>
    ensures { OnOk result (into.new ≡ into.old ++ runs_in s.now) }
{
    match &s.what {
        StmtKind::Declare(_, _)
        | StmtKind::Assign(_, _)
        | StmtKind::Call(_, _, _)
        | StmtKind::Await(_)
        | StmtKind::Return(_) => Ok(()),
        StmtKind::Run(_, unit, _, outputs) => {
            let outputs = statics_of(alloc, outputs)?;
            into.push(Run {
                place: s.place,
                unit: *unit,
                outputs,
            })?;
            Ok(())
        }
        StmtKind::If(arms, other) => {
            in_arms(alloc, arms, into)?;
            in_block(alloc, other, into)
        }
        StmtKind::Cobegin(branches) => in_branches(alloc, branches, into),
        StmtKind::When(_, _, body)
        | StmtKind::Repeat(body)
        | StmtKind::Until(body, _)
        | StmtKind::While(_, body) => in_block(alloc, body, into),
    }
}

#[cycle(finding)]
fn in_block(alloc: Global, body: &[Stmt], into: &mut List<Run>) -> Result<(), NoMemory>
    ensures { OnOk result (into.new ≡ into.old ++ joined (map runs_in body.now)) }
{
    for s in body {
        in_statement(alloc, s, into)?;
    }
    Ok(())
}

#[cycle(finding)]
fn in_arms(alloc: Global, arms: &[Arm], into: &mut List<Run>) -> Result<(), NoMemory>
    ensures { OnOk result (into.new ≡ into.old ++ joined (map runs_in_arm arms.now)) }
{
    for arm in arms {
        in_block(alloc, &arm.body, into)?;
    }
    Ok(())
}

#[cycle(finding)]
fn in_branches(alloc: Global, branches: &[Branch], into: &mut List<Run>) -> Result<(), NoMemory>
    ensures { OnOk result (into.new ≡ into.old ++ joined (map runs_in_branch branches.now)) }
{
    for branch in branches {
        in_block(alloc, &branch.body, into)?;
    }
    Ok(())
}

/// All of them.
pub fn all_in(alloc: Global, unit: &Unit) -> Result<List<Run>, NoMemory>
    ensures { IfOk result (λ runs. runs ≡ joined (map runs_in unit.now.body)) }
{
    let mut runs = List::new(alloc);
    in_block(alloc, &unit.body, &mut runs)?;
    Ok(runs)
}
