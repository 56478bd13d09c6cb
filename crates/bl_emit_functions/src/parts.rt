//! Parts of C trees that only bodies have. What is made has no place in a text.

ghost use Rattle.std.specs.Prelude.{◌≡◌, IfOk};
ghost use Rattle.bl_tree.specs.declared.scalar.Op.TheVariants.{And};
ghost use Rattle.bl_emit_acts.specs.Acts.{c_set};
ghost use Rattle.bl_emit_acts.specs.Trees.{c_two};
ghost use Rattle.bl_emit_functions.specs.Trees as trees;

use bl_emit_acts::parts::{literal, numbered, set, statement, two, whole};
use bl_tree::c::{CExpr, CPlace, CStmt, CStmtKind};
use bl_tree::{Box, List, NoMemory, Op, Scalar};
use std::alloc::Global;

/// Both of two tests.
pub fn both(alloc: Global, left: CExpr, right: CExpr) -> Result<CExpr, NoMemory>
    ensures { IfOk result (λ e. e ≡ c_two And left right) }
{
    two(alloc, Op::And, left, right)
}

/// The flag of a number.
pub fn flag(alloc: Global, number: u64) -> Result<CPlace, NoMemory>
    ensures { IfOk result (λ place. place ≡ trees.flag_place number) }
{
    let name = numbered(alloc, "q", number)?;
    Ok(whole(alloc, false, name))
}

/// Sets the flag of a number to true or false.
pub fn set_flag(alloc: Global, number: u64, untaken: bool) -> Result<CStmt, NoMemory>
    ensures { IfOk result (λ s. s ≡ c_set (trees.flag_place number) (trees.c_truth untaken)) }
{
    let at = flag(alloc, number)?;
    set(alloc, at, truth(untaken))
}

pub fn truth(is_true: bool) -> CExpr
    ensures { result ≡ trees.c_truth is_true }
{
    if is_true {
        literal(Scalar::Bool, 1)
    } else {
        literal(Scalar::Bool, 0)
    }
}

pub fn choice(
    alloc: Global,
    test: CExpr,
    block: List<CStmt>,
    other: Option<List<CStmt>>,
) -> Result<CStmt, NoMemory>
    ensures { IfOk result (λ s. s ≡ trees.c_if test block other) }
{
    let test = Box::new(alloc, test)?;
    Ok(statement(CStmtKind::If(test, block, other)))
}

/// A loop by the number of what counts its turns.
pub fn looping(alloc: Global, turn: u64, test: CExpr, body: List<CStmt>) -> Result<CStmt, NoMemory>
    ensures { IfOk result (λ s. s ≡ trees.c_loop (trees.turn_name turn) test body) }
{
    let name = numbered(alloc, "t", turn)?;
    let test = Box::new(alloc, test)?;
    Ok(statement(CStmtKind::Loop(name, test, body)))
}

pub fn returning(alloc: Global, value: Option<CExpr>) -> Result<CStmt, NoMemory>
    ensures { IfOk result (λ s. s ≡ trees.c_return value) }
{
    match value {
        None => Ok(statement(CStmtKind::Return(None))),
        Some(value) => {
            let value = Box::new(alloc, value)?;
            Ok(statement(CStmtKind::Return(Some(value))))
        }
    }
}
