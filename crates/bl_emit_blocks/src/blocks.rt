//! What nodes do.

ghost use Rattle.std.specs.Prelude.{◌≡◌, ◌∷◌, [], IfOk};
ghost use Rattle.bl_emit_acts.specs.Acts.{c_set, code_made};
ghost use Rattle.bl_emit_blocks.specs.Numbered as numbered;
ghost use Rattle.bl_emit_blocks.specs.Views.{view_in};
ghost use Rattle.bl_emit_spec.specs.Blocks as blocks;
ghost use Rattle.bl_emit_spec.specs.Blocks.{acted};
ghost use Rattle.bl_emit_spec.specs.Names.{result_place};
ghost use Rattle.bl_machine_transitions.specs.Told.{rule_in, task_in};

use crate::changes::changes;
use crate::parts::{else_block, value};
use crate::places::returned;
use crate::runs::{begun, first_call, resumed};
use crate::view::ActivityView;
use bl_emit_acts::act;
use bl_emit_acts::parts::{set, single};
use bl_emit_functions::parts::choice;
use bl_machine_transitions::{Task, Transition};
use bl_tree::c::{CExpr, CExprKind, CStmt};
use bl_tree::tree::{Expr, Stmt, StmtKind};
use bl_tree::{List, NoMemory, Scalar};
use std::alloc::Global;

/// A `return` sets the result, where it has one.
fn result_set(alloc: Global, view: &ActivityView, e: &Expr) -> Result<List<CStmt>, NoMemory>
    ensures { IfOk result (λ code. code ≡ c_set result_place (code_made (view_in view.entry.now).site e.now) ∷ []) }
{
    let at = returned(alloc)?;
    single(alloc, set(alloc, at, value(alloc, &view.site, e)?)?)
}

/// An act.
fn acted(alloc: Global, view: &ActivityView, s: &Stmt) -> Result<List<CStmt>, NoMemory>
    ensures { IfOk result (λ code. code ≡ acted (view_in view.entry.now) s.now) }
{
    match &s.what {
        StmtKind::Return(Some(e)) => result_set(alloc, view, e),
        StmtKind::Return(None) => Ok(List::new(alloc)),
        _ => act(alloc, &view.site, view.copies, s),
    }
}

/// The truth that an expression spells, where it is a literal of type bool.
fn spelled_truth(e: &CExpr) -> Option<bool>
    ensures { result ≡ blocks.spelled_truth e.now }
{
    match &e.what {
        CExprKind::Literal(Scalar::Bool, n) => Some(*n == 1),
        _ => None,
    }
}

/// The side that a test takes, where its truth is spelled, and else an `if`.
fn chosen(
    alloc: Global,
    test: CExpr,
    on_true: List<CStmt>,
    on_false: List<CStmt>,
) -> Result<List<CStmt>, NoMemory>
    ensures { IfOk result (λ code. code ≡ blocks.choice_code test (blocks.spelled_truth test) on_true on_false) }
{
    match spelled_truth(&test) {
        Some(true) => Ok(on_true),
        Some(false) => Ok(on_false),
        None => single(alloc, choice(alloc, test, on_true, else_block(on_false))?),
    }
}

/// A test: changes where it is true, and others where it is false.
fn tested(
    alloc: Global,
    view: &ActivityView,
    e: &Expr,
    rule: &Transition,
) -> Result<List<CStmt>, NoMemory>
    ensures { IfOk result (λ code. code
        ≡ numbered.numbered_tested (view_in view.entry.now) (code_made (view_in view.entry.now).site e.now) (rule_in rule.entry.now)) }
{
    let test = value(alloc, &view.site, e)?;
    let on_true = changes(alloc, view, &rule.on_true)?;
    let on_false = changes(alloc, view, &rule.on_false)?;
    chosen(alloc, test, on_true, on_false)
}

/// What a node does itself.
pub fn own(alloc: Global, view: &ActivityView, rule: &Transition) -> Result<List<CStmt>, NoMemory>
    ensures { IfOk result (λ code. code
        ≡ numbered.numbered_own (view_in view.entry.now) (rule_in rule.entry.now) (task_in rule.entry.now.task)) }
{
    match &rule.task {
        Task::Act(s) => acted(alloc, view, s),
        Task::Enter(run) => begun(alloc, view, run, &rule.on_true),
        Task::Nothing(_) | Task::Test(_) | Task::Resume(_) => Ok(List::new(alloc)),
    }
}

/// How a node goes on.
pub fn control(
    alloc: Global,
    view: &ActivityView,
    rule: &Transition,
) -> Result<List<CStmt>, NoMemory>
    ensures { IfOk result (λ code. code
        ≡ numbered.numbered_control (view_in view.entry.now) (rule_in rule.entry.now) (task_in rule.entry.now.task)) }
{
    match &rule.task {
        Task::Nothing(_) | Task::Act(_) => changes(alloc, view, &rule.on_true),
        Task::Test(e) => tested(alloc, view, e, rule),
        Task::Enter(run) => first_call(alloc, view, run),
        Task::Resume(run) => resumed(alloc, view, run, &rule.on_true),
    }
}
