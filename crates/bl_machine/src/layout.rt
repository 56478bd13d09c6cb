//! The counters at which the places of an activity rest.

ghost use Rattle.std.specs.Prelude.{◌≡◌, ◌+◌, ◌++◌, map, IfOk, OnOk};
ghost use Rattle.bl_tree.specs.Reduce.{greatest, total};
ghost use Rattle.bl_machine.specs.inner.Laid.{branch_counters, counters_from, laid, laid_arm, laid_branch, widths};

use bl_tree::tree::{Arm, Branch, Stmt, StmtKind};
use bl_tree::{List, NoMemory};

/// That many counters further on. A number that doesn't fit is want of memory.
pub fn after(counter: u32, count: u32) -> Result<u32, NoMemory>
    ensures { IfOk result (λ next. next ≡ counter + count) }
{
    counter.checked_add(count).ok_or(NoMemory)
}

/// Appends the counters of the places of a statement that is laid out from a counter on, and tells how many it takes.
#[cycle(laying)]
fn in_statement(s: &Stmt, low: u32, into: &mut List<u32>) -> Result<u32, NoMemory>
    ensures width { IfOk result (λ width. width ≡ (laid s.now).width) }
    ensures counters { OnOk result (into.new ≡ into.old ++ (laid s.now).counters low) }
{
    match &s.what {
        StmtKind::Declare(_, _)
        | StmtKind::Assign(_, _)
        | StmtKind::Call(_, _, _)
        | StmtKind::Return(_) => Ok(0),
        StmtKind::Await(_) | StmtKind::Run(_, _, _, _) => {
            into.push(low)?;
            Ok(1)
        }
        StmtKind::If(arms, other) => {
            // No `if` of a program is without an arm; one would do its `else` part, whatever its condition.
            if arms.is_empty() {
                let some = in_block(other, low, into)?;
                let others = in_block(other, low, into)?;
                Ok(some.max(others))
            } else {
                let some = in_arms(arms, low, into)?;
                let others = in_block(other, low, into)?;
                Ok(some.max(others))
            }
        }
        StmtKind::Cobegin(branches) => in_branches(branches, low, into),
        StmtKind::When(_, _, body)
        | StmtKind::Repeat(body)
        | StmtKind::Until(body, _)
        | StmtKind::While(_, body) => in_block(body, low, into),
    }
}

/// The same of a block: each of its statements is laid out from the counter on.
#[cycle(laying)]
pub fn in_block(body: &[Stmt], low: u32, into: &mut List<u32>) -> Result<u32, NoMemory>
    ensures width { IfOk result (λ width. width ≡ greatest (widths (map laid body.now))) }
    ensures counters { OnOk result (into.new ≡ into.old ++ counters_from low (map laid body.now)) }
{
    let mut widest = 0;
    for s in body {
        let width = in_statement(s, low, into)?;
        widest = width.max(widest);
    }
    Ok(widest)
}

#[cycle(laying)]
fn in_arms(arms: &[Arm], low: u32, into: &mut List<u32>) -> Result<u32, NoMemory>
    ensures width { IfOk result (λ width. width ≡ greatest (widths (map laid_arm arms.now))) }
    ensures counters { OnOk result (into.new ≡ into.old ++ counters_from low (map laid_arm arms.now)) }
{
    let mut widest = 0;
    for arm in arms {
        let width = in_block(&arm.body, low, into)?;
        widest = width.max(widest);
    }
    Ok(widest)
}

/// Each branch is laid out behind those before it.
#[cycle(laying)]
fn in_branches(branches: &[Branch], low: u32, into: &mut List<u32>) -> Result<u32, NoMemory>
    ensures width { IfOk result (λ width. width ≡ total (widths (map laid_branch branches.now))) }
    ensures counters { OnOk result (into.new ≡ into.old ++ branch_counters (map laid_branch branches.now) low) }
{
    let mut taken = 0;
    for branch in branches {
        let start = after(low, taken)?;
        into.push(start)?;
        let width = in_block(&branch.body, start, into)?;
        taken = after(taken, width.max(1))?;
    }
    Ok(taken)
}
