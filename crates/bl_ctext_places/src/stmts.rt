//! The places in statements.

ghost use Rattle.std.specs.Prelude.{◌≡◌, ◌++◌, map, OnOk};
ghost use Rattle.bl_ctext_places.specs.Lists.{path_of};
ghost use Rattle.bl_ctext_places.specs.Places.{places_in_block, places_in_stmt};

use crate::exprs::{in_call, in_expr, in_place};
use bl_tree::NoMemory;
use bl_tree::c::{CPlace, CStmt, CStmtKind};

#[cycle(listing)]
fn in_stmt<'a>(found: &mut Vec<&'a CPlace>, stmt: &'a CStmt) -> Result<(), NoMemory>
    ensures { OnOk result (map (λ p. path_of p.now) found.new.items ≡ map (λ p. path_of p.now) found.old.items ++ places_in_stmt stmt.now) }
{
    match &stmt.what {
        CStmtKind::Set(place, value) => {
            in_place(found, place)?;
            in_expr(found, value)
        }
        CStmtKind::Clear(place, _) => in_place(found, place),
        CStmtKind::Call(call) => in_call(found, call),
        CStmtKind::If(condition, block, None) => {
            in_expr(found, condition)?;
            in_block(found, block)
        }
        CStmtKind::If(condition, block, Some(other)) => {
            in_expr(found, condition)?;
            in_block(found, block)?;
            in_block(found, other)
        }
        CStmtKind::Loop(_, condition, body) => {
            in_expr(found, condition)?;
            in_block(found, body)
        }
        CStmtKind::Break | CStmtKind::Return(None) => Ok(()),
        CStmtKind::Return(Some(value)) => in_expr(found, value),
    }
}

/// Lists the places in a block: those that it sets, asks and passes on.
#[cycle(listing)]
pub fn in_block<'a>(found: &mut Vec<&'a CPlace>, block: &'a [CStmt]) -> Result<(), NoMemory>
    ensures { OnOk result (map (λ p. path_of p.now) found.new.items ≡ map (λ p. path_of p.now) found.old.items ++ places_in_block block.now) }
{
    for stmt in block {
        in_stmt(found, stmt)?;
    }
    Ok(())
}
