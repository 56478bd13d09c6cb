//! Parts of C trees that only blocks have.

ghost use Rattle.std.specs.Prelude.{◌≡◌, IfOk};
ghost use Rattle.bl_emit_acts.specs.Acts.{code_made};
ghost use Rattle.bl_emit_acts.specs.Sites.{site_in};
ghost use Rattle.bl_emit_functions.specs.Statements.{else_code};

use bl_emit_acts::{UnitSite, code, expression};
use bl_tree::c::{CExpr, CStmt};
use bl_tree::tree::Expr;
use bl_tree::{List, NoMemory};
use std::alloc::Global;

/// The C of an expression.
pub fn value(alloc: Global, site: &UnitSite, e: &Expr) -> Result<CExpr, NoMemory>
    ensures { IfOk result (λ made. made ≡ code_made (site_in site.entry.now) e.now) }
{
    Ok(code(expression(alloc, site, e)?))
}

/// An `else`, which is left out where it is empty.
pub fn else_block(code: List<CStmt>) -> Option<List<CStmt>>
    ensures { result ≡ else_code code }
{
    if code.is_empty() { None } else { Some(code) }
}
