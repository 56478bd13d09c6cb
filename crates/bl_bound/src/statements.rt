//! The costs of statements and blocks.

ghost use Rattle.std.specs.Prelude.{◌≡◌, map, option_map};
ghost use Rattle.bl_ctext_semantics.specs.Cost.{block_cost, cost_of_stmt, other_cost};
ghost use Rattle.bl_bound.specs.inner.Capped.{amount, capped, costs_in};

use crate::calls::{Known, in_call, in_expr, in_place};
use crate::cost::Cost;
use bl_tree::c::{CStmt, CStmtKind};

#[cycle(costing)]
fn of_stmt(known: &Known<'_>, stmt: &CStmt) -> Cost
    ensures { amount result ≡ capped (cost_of_stmt stmt.now (costs_in known.now)) }
{
    match &stmt.what {
        CStmtKind::Set(place, value) => {
            in_place(known, place).plus(in_expr(known, value)).begun()
        }
        CStmtKind::Clear(place, _) => in_place(known, place).begun(),
        CStmtKind::Call(call) => in_call(known, call).begun(),
        CStmtKind::If(condition, block, None) => {
            in_expr(known, condition)
                .plus(of_block(known, block))
                .begun()
        }
        CStmtKind::If(condition, block, Some(other)) => {
            let inside = of_block(known, block).or(of_block(known, other));
            in_expr(known, condition).plus(inside).begun()
        }
        CStmtKind::Loop(_, condition, body) => {
            let turn = in_expr(known, condition).plus(of_block(known, body));
            turn.begun().turns().begun()
        }
        CStmtKind::Break | CStmtKind::Return(None) => Cost::Number(1),
        CStmtKind::Return(Some(value)) => in_expr(known, value).begun(),
    }
}

/// The cost of a block, over those of the functions that are known.
#[cycle(costing)]
pub fn of_block(known: &Known<'_>, block: &[CStmt]) -> Cost
    ensures { amount result ≡ capped (block_cost (map cost_of_stmt block.now) (costs_in known.now)) }
{
    let mut cost = Cost::Number(0);
    for stmt in block {
        cost = cost.plus(of_stmt(known, stmt));
    }
    cost
}
