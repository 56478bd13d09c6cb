//! Which units may end, and what stands in the C of those alone.

ghost use Rattle.std.specs.Prelude.{◌≡◌, IfOk, slice_get};
ghost use Rattle.bl_emit_spec.specs.Blocks as blocks;

use bl_emit_acts::parts::single;
use bl_tree::c::CStmt;
use bl_tree::slices::element;
use bl_tree::tree::{Stmt, StmtKind, Unit};
use bl_tree::{List, NoMemory};
use std::alloc::Global;

/// Whether a statement is a `repeat` without a condition.
fn is_endless(s: &Stmt) -> bool
    ensures { result ≡ blocks.is_endless s.now }
{
    matches!(&s.what, StmtKind::Repeat(_))
}

/// Whether a unit may end.
pub fn unit_may_end(unit: &Unit) -> bool
    ensures { result ≡ blocks.unit_may_end unit.now }
{
    match unit.body.as_slice().last() {
        Some(s) => !is_endless(s),
        None => true,
    }
}

/// Whether the unit at a position may end, or is missing.
pub fn may_end_at(units: &[Unit], k: u32) -> bool
    ensures { result ≡ blocks.may_end_in (slice_get units.now k) }
{
    match element(units, k as usize) {
        Some(unit) => unit_may_end(unit),
        None => true,
    }
}

/// A statement, where the test is true. Fails only if memory runs out.
pub fn statement_where(alloc: Global, test: bool, s: CStmt) -> Result<List<CStmt>, NoMemory>
    ensures { IfOk result (λ code. code ≡ blocks.stmt_where test s) }
{
    if test {
        single(alloc, s)
    } else {
        Ok(List::new(alloc))
    }
}
