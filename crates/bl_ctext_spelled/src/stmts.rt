//! Which statements have a spelling, and how deep their brackets go.

ghost use Rattle.std.specs.Prelude.{map};
ghost use Rattle.bl_tree.specs.Reduce.{all_of, greatest};
ghost use Rattle.bl_ctext.specs.Spellable.{spells_stmt, spells_stmt_kind};
ghost use Rattle.bl_ctext.specs.inner.Depths.{stmt_depth, stmt_kind_depth};
ghost use Rattle.bl_ctext_spelled.specs.Deep.{Spelled};

use crate::depth::{at_least, deeper, flat, within};
use crate::exprs::{of_call, of_expr, of_place};
use bl_cparse_syntax::words::{is_struct_name, is_turn_name};
use bl_tree::c::{CStmt, CStmtKind};

#[cycle(spelling)]
fn of_stmt(stmt: &CStmt) -> Option<usize>
    ensures { Spelled (spells_stmt stmt.now) (stmt_depth stmt.now) result }
{
    of_kind(&stmt.what)
}

#[cycle(spelling)]
fn of_kind(what: &CStmtKind) -> Option<usize>
    ensures { Spelled (spells_stmt_kind what.now) (stmt_kind_depth what.now) result }
{
    match what {
        CStmtKind::Set(at, value) => deeper(of_place(at), of_expr(value)),
        CStmtKind::Clear(at, name) => {
            at_least(
                deeper(of_place(at), flat(is_struct_name(name.as_str().as_bytes()))),
                1,
            )
        }
        CStmtKind::Call(call) => of_call(call),
        CStmtKind::If(test, block, None) => {
            deeper(within(of_expr(test), 1), within(of_block(block), 1))
        }
        CStmtKind::If(test, block, Some(other)) => {
            let front = deeper(within(of_expr(test), 1), within(of_block(block), 1));
            deeper(front, within(of_block(other), 1))
        }
        CStmtKind::Loop(turn, test, body) => {
            let name = flat(is_turn_name(turn.as_str().as_bytes()));
            let front = deeper(name, within(of_expr(test), 2));
            deeper(front, within(at_least(of_block(body), 1), 2))
        }
        CStmtKind::Break | CStmtKind::Return(None) => Some(0),
        CStmtKind::Return(Some(value)) => of_expr(value),
    }
}

#[cycle(spelling)]
pub fn of_block(block: &[CStmt]) -> Option<usize>
    ensures { Spelled (all_of (map spells_stmt block.now)) (greatest (map stmt_depth block.now)) result }
{
    let mut depth = Some(0);
    for stmt in block {
        depth = deeper(depth, of_stmt(stmt));
    }
    depth
}
