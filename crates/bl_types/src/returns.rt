//! Rule Return, as far as it goes by how bodies are written.
#![tactic(auto, using(crate::proofs::NoteLemmas::notes))]

ghost use Rattle.std.specs.Prelude.{◌≡◌, map};
ghost use Rattle.bl_tree.specs.Reduce.{all_of, joined};
ghost use Rattle.bl_tree.specs.Returns.{last_of};
ghost use Rattle.bl_types.specs.Failures.{noted};
ghost use Rattle.bl_types.specs.Returns.{activity_returns, arm_surely_returns, function_returns, is_return, return_failures, stray, strays};
ghost use Rattle.bl_types.specs.Returns.{strays_in, strays_in_arm, strays_in_branch, surely_returns};

use crate::failure::Notes;
use bl_names_tree::item::NamedUnit;
use bl_names_tree::stmt::{NamedArm, NamedBranch, NamedStmt, NamedStmtKind};
use bl_tree::Rule;
use bl_tree::tree::UnitKind;

fn is_return(s: &NamedStmt) -> bool
    ensures { result ≡ is_return s.now }
{
    matches!(&s.what, NamedStmtKind::Return(_))
}

/// Whether a statement is a `return`, or an `if` that surely returns.
#[cycle(sure)]
fn surely_returns(s: &NamedStmt) -> bool
    ensures { result ≡ surely_returns s.now }
{
    match &s.what {
        NamedStmtKind::Return(_) => true,
        NamedStmtKind::If(all, other) => arms_return(all) && block_returns(other),
        _ => false,
    }
}

#[cycle(sure)]
fn arms_return(all: &[NamedArm]) -> bool
    ensures { result ≡ all_of (map arm_surely_returns all.now) }
{
    let mut sure = true;
    for arm in all {
        sure &= block_returns(&arm.body);
    }
    sure
}

/// Whether the last statement of a block surely returns.
#[cycle(sure)]
fn block_returns(body: &[NamedStmt]) -> bool
    ensures { result ≡ last_of (map surely_returns body.now) }
{
    let mut sure = false;
    for s in body {
        sure = surely_returns(s);
    }
    sure
}

/// Each `return` in a statement fails.
#[cycle(strays)]
fn strays_in(s: &NamedStmt, notes: &mut Notes)
    ensures { notes.new ≡ noted notes.old (strays_in s.now) }
{
    match &s.what {
        NamedStmtKind::Return(_) => notes.fail(Rule::Return, s.place),
        NamedStmtKind::If(all, other) => {
            strays_in_arms(all, notes);
            strays_in_block(other, notes);
        }
        NamedStmtKind::Cobegin(all) => strays_in_branches(all, notes),
        NamedStmtKind::When(_, _, body)
        | NamedStmtKind::Repeat(body)
        | NamedStmtKind::Until(body, _)
        | NamedStmtKind::While(_, body) => strays_in_block(body, notes),
        _ => {}
    }
}

#[cycle(strays)]
fn strays_in_block(body: &[NamedStmt], notes: &mut Notes)
    ensures { notes.new ≡ noted notes.old (joined (map strays_in body.now)) }
{
    for s in body {
        strays_in(s, notes);
    }
}

#[cycle(strays)]
fn strays_in_arms(all: &[NamedArm], notes: &mut Notes)
    ensures { notes.new ≡ noted notes.old (joined (map strays_in_arm all.now)) }
{
    for arm in all {
        strays_in_block(&arm.body, notes);
    }
}

#[cycle(strays)]
fn strays_in_branches(all: &[NamedBranch], notes: &mut Notes)
    ensures { notes.new ≡ noted notes.old (joined (map strays_in_branch all.now)) }
{
    for branch in all {
        strays_in_block(&branch.body, notes);
    }
}

/// A statement directly in a body may be a `return` where it is the last.
fn stray(is_followed: bool, s: &NamedStmt, notes: &mut Notes)
    ensures { notes.new ≡ noted notes.old (stray is_followed s.now) }
{
    if is_followed {
        strays_in(s, notes);
    } else if !is_return(s) {
        strays_in(s, notes);
    }
}

/// Each `return` in a body fails, but for one that stands last directly in it.
fn strays(body: &[NamedStmt], notes: &mut Notes)
    ensures { notes.new ≡ noted notes.old (strays body.now) }
{
    for (k, s) in body.iter().enumerate() {
        stray(k + 1 < body.len(), s, notes);
    }
}

/// Whether the last statement of a body is a `return`.
fn ends_with_return(body: &[NamedStmt]) -> bool
    ensures { result ≡ last_of (map is_return body.now) }
{
    let mut ends = false;
    for s in body {
        ends = is_return(s);
    }
    ends
}

fn function_returns(unit: &NamedUnit) -> bool
    ensures { result ≡ function_returns unit.now }
{
    unit.result.is_none() || (unit.outputs == 0 && block_returns(&unit.body))
}

fn activity_returns(unit: &NamedUnit) -> bool
    ensures { result ≡ activity_returns unit.now }
{
    unit.result.is_none() || ends_with_return(&unit.body)
}

/// A unit returns as its result asks.
pub fn judge_returns(unit: &NamedUnit, notes: &mut Notes)
    ensures { notes.new ≡ noted notes.old (return_failures unit.now) }
{
    match unit.kind {
        UnitKind::Function => {
            if !function_returns(unit) {
                notes.fail(Rule::Return, unit.name.place);
            }
        }
        UnitKind::Activity => {
            if !activity_returns(unit) {
                notes.fail(Rule::Return, unit.name.place);
            }
            strays(&unit.body, notes);
        }
    }
}
