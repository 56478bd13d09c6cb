//! Whether statements are the same.

ghost use Rattle.std.specs.Prelude.{◌≡◌, true};
ghost use Rattle.bl_simplify_walk.specs.Blocks.{HaveOneEnd};

use bl_tree::c::{CArg, CCall, CExpr, CExprKind, CIndex, CPlace, CStep, CStmt, CStmtKind};

// ---- expressions

#[tactic(auto, using(crate::proofs::OnSame::expr_same))]
#[cycle(comparing)]
pub fn is_same_expr(a: &CExpr, b: &CExpr) -> bool
    ensures { result ≡ true → a.now ≡ b.now }
{
    a.place == b.place && is_same_kind(&a.what, &b.what)
}

#[cycle(comparing)]
fn is_same_kind(a: &CExprKind, b: &CExprKind) -> bool
    ensures { result ≡ true → a.now ≡ b.now }
{
    match (a, b) {
        (CExprKind::Literal(ty, n), CExprKind::Literal(of, k)) => *ty == *of && *n == *k,
        (CExprKind::Read(a), CExprKind::Read(b)) => is_same_place(a, b),
        (CExprKind::Call(a), CExprKind::Call(b)) => is_same_call(a, b),
        (CExprKind::Not(a), CExprKind::Not(b)) => is_same_expr(a, b),
        (CExprKind::Two(op, a, b), CExprKind::Two(of, c, d)) => {
            *op == *of && is_same_expr(a, c) && is_same_expr(b, d)
        }
        _ => false,
    }
}

#[tactic(auto, using(crate::proofs::OnSame::place_same))]
#[cycle(comparing)]
fn is_same_place(a: &CPlace, b: &CPlace) -> bool
    ensures { result ≡ true → a.now ≡ b.now }
{
    if a.name.as_str() != b.name.as_str() {
        return false;
    }
    a.through == b.through && are_same_steps(&a.steps, &b.steps)
}

#[cycle(comparing)]
fn are_same_steps(a: &[CStep], b: &[CStep]) -> bool
    ensures { result ≡ true → a.now ≡ b.now }
{
    if a.len() != b.len() {
        return false;
    }
    for k in 0..a.len() {
        if !is_same_step(&a[k], &b[k]) {
            return false;
        }
    }
    true
}

#[tactic(auto, using(crate::proofs::OnSame::step_same))]
#[cycle(comparing)]
fn is_same_step(a: &CStep, b: &CStep) -> bool
    ensures { result ≡ true → a.now ≡ b.now }
{
    if a.member.as_str() != b.member.as_str() {
        return false;
    }
    match (&a.index, &b.index) {
        (Some(a), Some(b)) => is_same_index(a, b),
        (None, None) => true,
        _ => false,
    }
}

#[tactic(auto, using(crate::proofs::OnSame::index_same))]
#[cycle(comparing)]
fn is_same_index(a: &CIndex, b: &CIndex) -> bool
    ensures { result ≡ true → a.now ≡ b.now }
{
    a.signed == b.signed && a.length == b.length && is_same_expr(&a.at, &b.at)
}

#[tactic(auto, using(crate::proofs::OnSame::call_same))]
#[cycle(comparing)]
fn is_same_call(a: &CCall, b: &CCall) -> bool
    ensures { result ≡ true → a.now ≡ b.now }
{
    a.name.as_str() == b.name.as_str() && are_same_args(&a.args, &b.args)
}

#[cycle(comparing)]
fn are_same_args(a: &[CArg], b: &[CArg]) -> bool
    ensures { result ≡ true → a.now ≡ b.now }
{
    if a.len() != b.len() {
        return false;
    }
    for k in 0..a.len() {
        if !is_same_arg(&a[k], &b[k]) {
            return false;
        }
    }
    true
}

#[cycle(comparing)]
fn is_same_arg(a: &CArg, b: &CArg) -> bool
    ensures { result ≡ true → a.now ≡ b.now }
{
    match (a, b) {
        (CArg::Value(a), CArg::Value(b)) => is_same_expr(a, b),
        (CArg::Address(a), CArg::Address(b)) => is_same_place(a, b),
        _ => false,
    }
}

// ---- statements

#[tactic(auto, using(crate::proofs::OnSame::stmt_same))]
#[cycle(comparing_stmts)]
pub fn is_same_stmt(a: &CStmt, b: &CStmt) -> bool
    ensures { result ≡ true → a.now ≡ b.now }
{
    a.place == b.place && is_same_stmt_kind(&a.what, &b.what)
}

#[cycle(comparing_stmts)]
fn is_same_stmt_kind(a: &CStmtKind, b: &CStmtKind) -> bool
    ensures { result ≡ true → a.now ≡ b.now }
{
    match (a, b) {
        (CStmtKind::Set(a, e), CStmtKind::Set(b, d)) => is_same_place(a, b) && is_same_expr(e, d),
        (CStmtKind::Clear(a, of), CStmtKind::Clear(b, other)) => {
            of.as_str() == other.as_str() && is_same_place(a, b)
        }
        (CStmtKind::Call(a), CStmtKind::Call(b)) => is_same_call(a, b),
        (CStmtKind::If(c, block, None), CStmtKind::If(d, other, None)) => {
            is_same_expr(c, d) && is_same_block(block, other)
        }
        (CStmtKind::If(c, block, Some(left)), CStmtKind::If(d, other, Some(right))) => {
            is_same_expr(c, d) && is_same_block(block, other) && is_same_block(left, right)
        }
        (CStmtKind::Break, CStmtKind::Break) => true,
        _ => false,
    }
}

#[cycle(comparing_stmts)]
pub fn is_same_block(a: &[CStmt], b: &[CStmt]) -> bool
    ensures { result ≡ true → a.now ≡ b.now }
{
    if a.len() != b.len() {
        return false;
    }
    for k in 0..a.len() {
        if !is_same_stmt(&a[k], &b[k]) {
            return false;
        }
    }
    true
}

/// How much of two blocks stands before the statements with which both end.
#[derive(Clone, Copy)]
pub struct Fronts {
    pub first: usize,
    pub second: usize,
}

/// What stands before the statements with which both blocks end.
pub fn fronts_of(a: &[CStmt], b: &[CStmt]) -> Fronts
    ensures { HaveOneEnd a.now b.now result.first result.second }
{
    let mut first = a.len();
    let mut second = b.len();
    while first > 0 && second > 0 {
        if !is_same_stmt(&a[first - 1], &b[second - 1]) {
            return Fronts { first, second };
        }
        first -= 1;
        second -= 1;
    }
    Fronts { first, second }
}
