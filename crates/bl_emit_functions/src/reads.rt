//! The names that C reads, in one pass.

ghost use Rattle.std.specs.Prelude.{◌≡◌, ◌||◌, IfOk, OnOk, map};
ghost use Rattle.bl_tree.specs.declared.text.Text.{Text};
ghost use Rattle.bl_tree.specs.Reduce.{any_of};
ghost use Rattle.bl_tree.specs.Words.{is_among};
ghost use Rattle.bl_emit_functions.specs.Reads as reads;

use crate::names::Names;
use bl_tree::NoMemory;
use bl_tree::c::{CArg, CCall, CExpr, CExprKind, CPlace, CStep, CStmt, CStmtKind};
use std::alloc::Global;

#[cycle(reading)]
fn in_expr<'a>(e: &'a CExpr, into: &mut Names<'a>) -> Result<(), NoMemory>
    ensures { OnOk result ((name : Text) → is_among name into.new ≡ is_among name into.old || reads.reads_in name e.now) }
{
    match &e.what {
        CExprKind::Literal(_, _) => Ok(()),
        CExprKind::Read(place) => in_place(place, into),
        CExprKind::Call(call) => in_call(call, into),
        CExprKind::Not(operand) => in_expr(operand, into),
        CExprKind::Two(_, left, right) => {
            in_expr(left, into)?;
            in_expr(right, into)?;
            Ok(())
        }
    }
}

/// Adds the name of a place that is read, and those that its indices read.
#[cycle(reading)]
fn in_place<'a>(place: &'a CPlace, into: &mut Names<'a>) -> Result<(), NoMemory>
    ensures { OnOk result ((name : Text) → is_among name into.new ≡ is_among name into.old || reads.reads_in_place name place.now) }
{
    into.add(place.name.as_str())?;
    in_steps(&place.steps, into)?;
    Ok(())
}

#[cycle(reading)]
fn in_steps<'a>(steps: &'a [CStep], into: &mut Names<'a>) -> Result<(), NoMemory>
    ensures { OnOk result ((name : Text) → is_among name into.new
        ≡ is_among name into.old || any_of (map (reads.reads_in_step name) steps.now)) }
{
    for step in steps {
        in_step(step, into)?;
    }
    Ok(())
}

#[cycle(reading)]
fn in_step<'a>(step: &'a CStep, into: &mut Names<'a>) -> Result<(), NoMemory>
    ensures { OnOk result ((name : Text) → is_among name into.new ≡ is_among name into.old || reads.reads_in_step name step.now) }
{
    match &step.index {
        Some(index) => in_expr(&index.at, into),
        None => Ok(()),
    }
}

#[cycle(reading)]
fn in_call<'a>(call: &'a CCall, into: &mut Names<'a>) -> Result<(), NoMemory>
    ensures { OnOk result ((name : Text) → is_among name into.new ≡ is_among name into.old || reads.reads_in_call name call.now) }
{
    in_args(&call.args, into)
}

#[cycle(reading)]
fn in_args<'a>(args: &'a [CArg], into: &mut Names<'a>) -> Result<(), NoMemory>
    ensures { OnOk result ((name : Text) → is_among name into.new
        ≡ is_among name into.old || any_of (map (reads.reads_in_arg name) args.now)) }
{
    for arg in args {
        in_arg(arg, into)?;
    }
    Ok(())
}

#[cycle(reading)]
fn in_arg<'a>(arg: &'a CArg, into: &mut Names<'a>) -> Result<(), NoMemory>
    ensures { OnOk result ((name : Text) → is_among name into.new ≡ is_among name into.old || reads.reads_in_arg name arg.now) }
{
    match arg {
        CArg::Value(value) => in_expr(value, into),
        CArg::Address(place) => in_place(place, into),
    }
}

/// Adds the names that the indices of a place that is set read.
fn in_target<'a>(place: &'a CPlace, into: &mut Names<'a>) -> Result<(), NoMemory>
    ensures { OnOk result ((name : Text) → is_among name into.new ≡ is_among name into.old || reads.reads_in_target name place.now) }
{
    in_steps(&place.steps, into)
}

#[cycle(reading_statements)]
fn in_stmt<'a>(stmt: &'a CStmt, into: &mut Names<'a>) -> Result<(), NoMemory>
    ensures { OnOk result ((name : Text) → is_among name into.new ≡ is_among name into.old || reads.reads_in_stmt name stmt.now) }
{
    match &stmt.what {
        CStmtKind::Set(place, value) => {
            in_target(place, into)?;
            in_expr(value, into)?;
            Ok(())
        }
        CStmtKind::Clear(place, _) => in_target(place, into),
        CStmtKind::Call(call) => in_call(call, into),
        CStmtKind::If(test, block, None) => {
            in_expr(test, into)?;
            in_block(block, into)?;
            Ok(())
        }
        CStmtKind::If(test, block, Some(other)) => {
            in_expr(test, into)?;
            in_block(block, into)?;
            in_block(other, into)?;
            Ok(())
        }
        CStmtKind::Loop(_, test, body) => {
            in_expr(test, into)?;
            in_block(body, into)?;
            Ok(())
        }
        CStmtKind::Break | CStmtKind::Return(None) => Ok(()),
        CStmtKind::Return(Some(value)) => in_expr(value, into),
    }
}

#[cycle(reading_statements)]
fn in_block<'a>(block: &'a [CStmt], into: &mut Names<'a>) -> Result<(), NoMemory>
    ensures { OnOk result ((name : Text) → is_among name into.new ≡ is_among name into.old || reads.reads_in_block name block.now) }
{
    for stmt in block {
        in_stmt(stmt, into)?;
    }
    Ok(())
}

/// The names that statements read. Fails only for want of memory.
pub fn names_read<'a>(alloc: Global, block: &'a [CStmt]) -> Result<Names<'a>, NoMemory>
    ensures { IfOk result (λ names. (name : Text) → is_among name names ≡ reads.reads_in_block name block.now) }
{
    let mut names = Names::new(alloc);
    in_block(block, &mut names)?;
    Ok(names)
}
