//! The numbers at which a part rests as long as it is paused.

ghost use Rattle.std.specs.Prelude.{◌≡◌, ◌+◌, ◌++◌, map, IfOk, OnOk};
ghost use Rattle.bl_machine_transitions.specs.inner.Joined.{layout_in};
ghost use Rattle.bl_machine_transitions.specs.inner.Parts.{ArmsRest, arm_part, branch_part, first_rests, forked, part, part_of_block};

use crate::size::{after, of_branches};
use crate::table::Table;
use bl_machine::Slot;
use bl_tree::tree::{Arm, Branch, Stmt, StmtKind};
use bl_tree::{List, NoMemory};

/// Appends the numbers of a statement's resting places, the first of which has the position, and answers the position behind the last one.
#[cycle(resting)]
fn in_statement(t: &Table<'_>, s: &Stmt, p: u32, into: &mut List<Slot>) -> Result<u32, NoMemory>
    ensures next { IfOk result (λ next. next ≡ p + (part s.now).size.places) }
    ensures rests { OnOk result (into.new ≡ into.old ++ (part s.now).rests (layout_in t.now) p) }
{
    match &s.what {
        StmtKind::Declare(_, _)
        | StmtKind::Assign(_, _)
        | StmtKind::Call(_, _, _)
        | StmtKind::Return(_) => Ok(p),
        StmtKind::Await(_) | StmtKind::Run(_, _, _, _) => {
            into.push(t.slot(p))?;
            after(p, 1)
        }
        StmtKind::If(arms, other) => {
            // No `if` of a program is without an arm.
            if arms.is_empty() {
                Err(NoMemory)
            } else {
                let next = in_arms(t, arms, p, into)?;
                in_block(t, other, next, into)
            }
        }
        StmtKind::Cobegin(branches) => in_branches(t, branches, p, into),
        StmtKind::When(_, _, body)
        | StmtKind::Repeat(body)
        | StmtKind::Until(body, _)
        | StmtKind::While(_, body) => in_block(t, body, p, into),
    }
}

/// Appends the numbers of a block's resting places, and answers the position behind the last one.
#[cycle(resting)]
pub fn in_block(
    t: &Table<'_>,
    body: &[Stmt],
    p: u32,
    into: &mut List<Slot>,
) -> Result<u32, NoMemory>
    ensures next { IfOk result (λ next. next ≡ p + (part_of_block (map part body.now)).size.places) }
    ensures rests { OnOk result (into.new ≡ into.old ++ (part_of_block (map part body.now)).rests (layout_in t.now) p) }
{
    let mut at = p;
    for s in body {
        let next = in_statement(t, s, at, into)?;
        at = next;
    }
    Ok(at)
}

/// Appends the numbers of the resting places in the arms of an `if`.
#[cycle(resting)]
fn in_arms(t: &Table<'_>, arms: &[Arm], p: u32, into: &mut List<Slot>) -> Result<u32, NoMemory>
    ensures { IfOk result (λ next. ArmsRest (layout_in t.now) (map arm_part arms.now) p next into.old into.new) }
{
    let mut at = p;
    for arm in arms {
        let next = in_block(t, &arm.body, at, into)?;
        at = next;
    }
    Ok(at)
}

/// Appends the numbers by which a `cobegin` is seen to rest: its own, and those of its first branch.
#[cycle(resting)]
fn in_branches(
    t: &Table<'_>,
    branches: &[Branch],
    p: u32,
    into: &mut List<Slot>,
) -> Result<u32, NoMemory>
    ensures next { IfOk result (λ next. next ≡ p + (forked (map branch_part branches.now)).places) }
    ensures rests { OnOk result (into.new ≡ into.old ++ first_rests (layout_in t.now) p (map branch_part branches.now)) }
{
    if !branches.is_empty() {
        into.push(t.slot(p))?;
        in_block(t, &branches[0].body, after(p, 1)?, into)?;
    }
    after(p, of_branches(branches)?.places)
}
