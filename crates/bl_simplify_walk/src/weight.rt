//! How many nodes statements and expressions have, by which splits are judged. No clause speaks of it.

use bl_tree::c::{CArg, CCall, CExpr, CExprKind, CIndex, CPlace, CStep, CStmt, CStmtKind};

#[cycle(weighing)]
pub fn weight_of_expr(it: &CExpr) -> usize {
    match &it.what {
        CExprKind::Literal(_, _) => 1,
        CExprKind::Read(at) => weight_of_place(at),
        CExprKind::Call(call) => weight_of_call(call),
        CExprKind::Not(operand) => weight_of_expr(operand).saturating_add(1),
        CExprKind::Two(_, left, right) => weight_of_expr(left)
            .saturating_add(weight_of_expr(right))
            .saturating_add(1),
    }
}

#[cycle(weighing)]
fn weight_of_place(at: &CPlace) -> usize {
    let mut weight: usize = 1;
    for step in at.steps.as_slice() {
        weight = weight.saturating_add(weight_of_step(step));
    }
    weight
}

#[cycle(weighing)]
fn weight_of_step(step: &CStep) -> usize {
    match &step.index {
        None => 0,
        Some(index) => weight_of_index(index),
    }
}

#[cycle(weighing)]
fn weight_of_index(index: &CIndex) -> usize {
    weight_of_expr(&index.at)
}

#[cycle(weighing)]
fn weight_of_call(call: &CCall) -> usize {
    let mut weight: usize = 1;
    for arg in call.args.as_slice() {
        weight = weight.saturating_add(weight_of_arg(arg));
    }
    weight
}

#[cycle(weighing)]
fn weight_of_arg(arg: &CArg) -> usize {
    match arg {
        CArg::Value(value) => weight_of_expr(value),
        CArg::Address(at) => weight_of_place(at),
    }
}

/// How much a statement counts where a split is judged. An assignment of a known value to a local goes where each test of the
/// local is decided, so it counts for none.
#[cycle(weighing_in_split)]
pub fn weight_in_split(stmt: &CStmt) -> usize {
    match &stmt.what {
        CStmtKind::Set(at, value) if is_flag(at, value) => 0,
        CStmtKind::If(condition, block, None) => weight_of_expr(condition)
            .saturating_add(block_in_split(block))
            .saturating_add(1),
        CStmtKind::If(condition, block, Some(other)) => weight_of_expr(condition)
            .saturating_add(block_in_split(block))
            .saturating_add(block_in_split(other))
            .saturating_add(1),
        _ => weight_of_stmt(stmt),
    }
}

#[cycle(weighing_in_split)]
fn block_in_split(block: &[CStmt]) -> usize {
    let mut weight: usize = 0;
    for stmt in block {
        weight = weight.saturating_add(weight_in_split(stmt));
    }
    weight
}

/// Whether an assignment gives a local a known value.
fn is_flag(at: &CPlace, value: &CExpr) -> bool {
    match &value.what {
        CExprKind::Literal(_, _) => !at.through && at.steps.is_empty(),
        _ => false,
    }
}

#[cycle(weighing_stmts)]
pub fn weight_of_stmt(stmt: &CStmt) -> usize {
    match &stmt.what {
        CStmtKind::Set(at, value) => weight_of_place(at).saturating_add(weight_of_expr(value)),
        CStmtKind::Clear(at, _) => weight_of_place(at),
        CStmtKind::Call(call) => weight_of_call(call),
        CStmtKind::If(condition, block, None) => weight_of_expr(condition)
            .saturating_add(weight_of_block(block))
            .saturating_add(1),
        CStmtKind::If(condition, block, Some(other)) => weight_of_expr(condition)
            .saturating_add(weight_of_block(block))
            .saturating_add(weight_of_block(other))
            .saturating_add(1),
        CStmtKind::Loop(_, condition, body) => weight_of_expr(condition)
            .saturating_add(weight_of_block(body))
            .saturating_add(1),
        CStmtKind::Break | CStmtKind::Return(None) => 1,
        CStmtKind::Return(Some(value)) => weight_of_expr(value).saturating_add(1),
    }
}

#[cycle(weighing_stmts)]
pub fn weight_of_block(block: &[CStmt]) -> usize {
    let mut weight: usize = 0;
    for stmt in block {
        weight = weight.saturating_add(weight_of_stmt(stmt));
    }
    weight
}
