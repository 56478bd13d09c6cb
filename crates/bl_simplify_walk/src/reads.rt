//! Whether statements read a variable before they set it. No clause speaks of it.

use crate::parts::assignment_of;
use bl_tree::NoMemory;
use bl_tree::c::{CArg, CCall, CExpr, CExprKind, CStmt, CStmtKind};
use std::alloc::Global;

/// What the first statement that names a variable does with it.
#[derive(Clone, Copy)]
pub enum Use {
    Read,
    Set,
    Absent,
}

/// What becomes of a variable's value in a block: an assignment in a branch or a loop may not be run, and counts as none.
#[cycle(reading_stmts)]
pub fn use_in_block(block: &[CStmt], name: &str) -> Use {
    for stmt in block {
        if stmt_reads(stmt, name) {
            return Use::Read;
        }
        if sets_whole(stmt, name) {
            return Use::Set;
        }
    }
    Use::Absent
}

/// Whether a statement sets a variable as a whole.
fn sets_whole(stmt: &CStmt, name: &str) -> bool {
    match assignment_of(stmt) {
        Some(it) => !it.at.through && it.at.steps.is_empty() && it.at.name.as_str() == name,
        None => false,
    }
}

/// The literal that a statement sets a variable as a whole to.
fn literal_set(stmt: &CStmt, name: &str) -> Option<i128> {
    match &stmt.what {
        CStmtKind::Set(at, value)
            if !at.through && at.steps.is_empty() && at.name.as_str() == name => {
            literal_of(value)
        }
        _ => None,
    }
}

fn literal_of(e: &CExpr) -> Option<i128> {
    match &e.what {
        CExprKind::Literal(_, n) => Some(*n),
        _ => None,
    }
}

/// The literal that a block or one of its branches sets a variable to, where nothing reads it before.
#[cycle(setting_next)]
pub fn set_next(block: &[CStmt], name: &str) -> Option<i128> {
    for stmt in block {
        if stmt_reads(stmt, name) {
            return None;
        }
        let set = set_next_by(stmt, name);
        if set.is_some() || sets_whole(stmt, name) {
            return set;
        }
    }
    None
}

#[cycle(setting_next)]
fn set_next_by(stmt: &CStmt, name: &str) -> Option<i128> {
    match &stmt.what {
        CStmtKind::If(_, block, None) => set_next(block, name),
        CStmtKind::If(_, block, Some(other)) => match set_next(block, name) {
            Some(n) => Some(n),
            None => set_next(other, name),
        },
        _ => literal_set(stmt, name),
    }
}

#[cycle(reading_stmts)]
fn block_reads(block: &[CStmt], name: &str) -> bool {
    match use_in_block(block, name) {
        Use::Read => true,
        Use::Set | Use::Absent => false,
    }
}

#[cycle(reading_stmts)]
fn stmt_reads(stmt: &CStmt, name: &str) -> bool {
    match &stmt.what {
        CStmtKind::Set(_, value) => expr_reads(value, name),
        CStmtKind::Call(call) => call_reads(call, name),
        CStmtKind::If(condition, block, None) | CStmtKind::Loop(_, condition, block) => {
            expr_reads(condition, name) || block_reads(block, name)
        }
        CStmtKind::If(condition, block, Some(other)) => {
            expr_reads(condition, name) || block_reads(block, name) || block_reads(other, name)
        }
        CStmtKind::Return(Some(value)) => expr_reads(value, name),
        CStmtKind::Clear(_, _) | CStmtKind::Break | CStmtKind::Return(None) => false,
    }
}

#[cycle(reading)]
fn expr_reads(e: &CExpr, name: &str) -> bool {
    match &e.what {
        CExprKind::Literal(_, _) => false,
        CExprKind::Read(at) => at.name.as_str() == name,
        CExprKind::Call(call) => call_reads(call, name),
        CExprKind::Not(operand) => expr_reads(operand, name),
        CExprKind::Two(_, left, right) => expr_reads(left, name) || expr_reads(right, name),
    }
}

#[cycle(reading)]
fn call_reads(call: &CCall, name: &str) -> bool {
    for arg in call.args.as_slice() {
        if arg_reads(arg, name) {
            return true;
        }
    }
    false
}

#[cycle(reading)]
fn arg_reads(arg: &CArg, name: &str) -> bool {
    match arg {
        CArg::Value(value) => expr_reads(value, name),
        CArg::Address(_) => false,
    }
}

// ---- what is set and read next

/// Whether the statement of this number, from 1 on, of those that come next reads a local that a statement sets.
pub fn reads_set(
    alloc: Global,
    stmt: &CStmt,
    rest: &[&[CStmt]],
    n: usize,
) -> Result<bool, NoMemory> {
    let Some(next) = next_of(rest, n) else {
        return Ok(false);
    };
    let mut names = Vec::new(alloc);
    add_set(&mut names, stmt)?;
    for name in names.iter() {
        if stmt_reads(next, name) {
            return Ok(true);
        }
    }
    Ok(false)
}

/// The statement of this number, from 1 on, in the next block, which is the last.
fn next_of<'a>(rest: &[&'a [CStmt]], n: usize) -> Option<&'a CStmt> {
    match rest.split_last() {
        Some((next, _)) if 0 < n && n <= next.len() => Some(&next[n - 1]),
        _ => None,
    }
}

/// Adds the locals that a statement sets as a whole.
#[cycle(setting)]
fn add_set<'a>(names: &mut Vec<&'a str>, stmt: &'a CStmt) -> Result<(), NoMemory> {
    match &stmt.what {
        CStmtKind::Set(at, _) if !at.through && at.steps.is_empty() => {
            match names.push(at.name.as_str()) {
                Ok(()) => Ok(()),
                Err(_) => Err(NoMemory),
            }
        }
        CStmtKind::If(_, block, None) => add_set_in(names, block),
        CStmtKind::If(_, block, Some(other)) => {
            add_set_in(names, block)?;
            add_set_in(names, other)
        }
        _ => Ok(()),
    }
}

#[cycle(setting)]
fn add_set_in<'a>(names: &mut Vec<&'a str>, block: &'a [CStmt]) -> Result<(), NoMemory> {
    for stmt in block {
        add_set(names, stmt)?;
    }
    Ok(())
}
