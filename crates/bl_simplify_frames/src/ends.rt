//! Whether a block that doesn't trap goes on.

ghost use Rattle.std.specs.Prelude.{◌≡◌, map};
ghost use Rattle.bl_simplify_laws_frames.specs.Reached.{ends_in, goes_through as goes_on_in, none_ends};

use bl_tree::c::{CStmt, CStmtKind};

/// Whether a statement has a `break` of its own.
#[cycle(breaking)]
fn has_break(stmt: &CStmt) -> bool
    ensures { result ≡ (ends_in stmt.now).breaks }
{
    match &stmt.what {
        CStmtKind::If(_, block, None) => have_break(block),
        CStmtKind::If(_, block, Some(other)) => have_break(block) | have_break(other),
        CStmtKind::Break => true,
        _ => false,
    }
}

#[cycle(breaking)]
fn have_break(block: &[CStmt]) -> bool
    ensures { result ≡ (none_ends (map ends_in block.now)).breaks }
{
    let mut some = false;
    for stmt in block {
        some |= has_break(stmt);
    }
    some
}

/// Whether a statement has a `return`.
#[cycle(returning)]
fn has_return(stmt: &CStmt) -> bool
    ensures { result ≡ (ends_in stmt.now).returns }
{
    match &stmt.what {
        CStmtKind::If(_, block, Some(other)) => have_return(block) | have_return(other),
        CStmtKind::If(_, block, None) => have_return(block),
        CStmtKind::Loop(_, _, body) => have_return(body),
        CStmtKind::Return(_) => true,
        _ => false,
    }
}

#[cycle(returning)]
fn have_return(block: &[CStmt]) -> bool
    ensures { result ≡ (none_ends (map ends_in block.now)).returns }
{
    let mut some = false;
    for stmt in block {
        some |= has_return(stmt);
    }
    some
}

/// Whether a block has no `return`, and `break` in its loops alone.
pub fn goes_through(block: &[CStmt]) -> bool
    ensures { result ≡ goes_on_in block.now }
{
    !(have_break(block) | have_return(block))
}
