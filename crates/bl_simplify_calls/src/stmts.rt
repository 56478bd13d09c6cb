//! Whether all calls in statements may be made.

ghost use Rattle.std.specs.Prelude.{◌≡◌, List};
ghost use Rattle.std.specs.List.{list_all};
ghost use Rattle.bl_tree.specs.declared.text.Text.{Text};
ghost use Rattle.bl_ctext_places.specs.Names.{HasNames};
ghost use Rattle.bl_ctext_semantics.specs.inner.Maps.{text_at};
ghost use Rattle.bl_simplify_laws.specs.Tables.{calls_stand_in};

use crate::exprs::{in_call, in_expr, in_place};
use crate::functions::Framed;
use bl_tree::c::{CStmt, CStmtKind};

#[cycle(standing)]
fn in_stmt(framed: &Framed<'_>, stmt: &CStmt) -> bool
    ensures { (names : List Text) → HasNames (text_at framed.now) names → result ≡ calls_stand_in names stmt.now }
{
    match &stmt.what {
        CStmtKind::Set(place, value) => in_place(framed, place) & in_expr(framed, value),
        CStmtKind::Clear(place, _) => in_place(framed, place),
        CStmtKind::Call(call) => in_call(framed, call),
        CStmtKind::If(condition, block, None) => in_expr(framed, condition)
            & in_block(framed, block),
        CStmtKind::If(condition, block, Some(other)) => {
            in_expr(framed, condition) & (in_block(framed, block) & in_block(framed, other))
        }
        CStmtKind::Loop(_, condition, body) => in_expr(framed, condition) & in_block(framed, body),
        CStmtKind::Break | CStmtKind::Return(None) => true,
        CStmtKind::Return(Some(value)) => in_expr(framed, value),
    }
}

#[cycle(standing)]
pub fn in_block(framed: &Framed<'_>, block: &[CStmt]) -> bool
    ensures { (names : List Text) → HasNames (text_at framed.now) names → result ≡ list_all (calls_stand_in names) block.now }
{
    let mut stand = true;
    for stmt in block {
        stand &= in_stmt(framed, stmt);
    }
    stand
}
