//! What a `run` does at a node.

ghost use Rattle.std.specs.Prelude.{◌≡◌, ◌++◌, ◌∷◌, IfOk, None, map, slice_get};
ghost use Rattle.bl_tree.specs.declared.c.CArg.TheVariants.{Address};
ghost use Rattle.bl_emit_acts.specs.Acts.{c_calling, name_of_callee, output_arg};
ghost use Rattle.bl_emit_acts.specs.Expressions.{arg_of, made_of};
ghost use Rattle.bl_emit_acts.specs.Sites.{site_in};
ghost use Rattle.bl_emit_acts.specs.Trees.{c_call, c_read};
ghost use Rattle.bl_emit_blocks.specs.Numbered as numbered;
ghost use Rattle.bl_emit_blocks.specs.Views.{view_in};
ghost use Rattle.bl_emit_functions.specs.Trees.{c_if};
ghost use Rattle.bl_emit_spec.specs.Blocks as blocks;
ghost use Rattle.bl_emit_spec.specs.Names as names;
ghost use Rattle.bl_machine_transitions.specs.Told.{arguments_in};

use crate::changes::changes;
use crate::ends::{may_end_at, statement_where};
use crate::places::{callee_frame, callee_memory, ended, given};
use crate::view::ActivityView;
use bl_emit_acts::parts::{clear, joined, prefixed, read, set, single, statement};
use bl_emit_acts::{UnitSite, argument, expression, place};
use bl_emit_functions::parts::{choice, truth};
use bl_emit_tables::name_of;
use bl_machine_transitions::{Change, Run};
use bl_tree::c::{CArg, CCall, CPlace, CStmt, CStmtKind};
use bl_tree::slices::element;
use bl_tree::tree::{Expr, Path};
use bl_tree::{List, NoMemory, Text};
use std::alloc::Global;

// ---- the activity that is called

/// Whether it has a result.
fn has_result(view: &ActivityView, a: u32) -> bool
    ensures { result ≡ blocks.has_result (slice_get (view_in view.entry.now).site.earlier a) }
{
    match element(view.site.earlier, a as usize) {
        Some(unit) => unit.result.is_some(),
        None => false,
    }
}

/// Whether it remembers variables.
fn remembers(view: &ActivityView, a: u32) -> bool
    ensures { result ≡ (view_in view.entry.now).remembers a }
{
    match element(view.remembers, a as usize) {
        Some(remembers) => *remembers,
        None => false,
    }
}

/// Whether it may end.
fn ends(view: &ActivityView, a: u32) -> bool
    ensures { result ≡ blocks.may_end_in (slice_get (view_in view.entry.now).site.earlier a) }
{
    may_end_at(view.site.earlier, a)
}

/// The name of its function.
fn callee(alloc: Global, view: &ActivityView, a: u32) -> Result<Text, NoMemory>
    ensures { IfOk result (λ name. name ≡ name_of_callee (slice_get (view_in view.entry.now).site.earlier a)) }
{
    match element(view.site.earlier, a as usize) {
        Some(unit) => prefixed(alloc, "a_", unit.name.as_str()),
        None => prefixed(alloc, "a_", ""),
    }
}

/// The name of the struct of where it rests.
fn frame(alloc: Global, view: &ActivityView, a: u32) -> Result<Text, NoMemory>
    ensures { IfOk result (λ text. text ≡ names.frame_name (blocks.name_in (slice_get (view_in view.entry.now).site.earlier a))) }
{
    prefixed(alloc, "f_", name_of(view.site.earlier, a))
}

// ---- arguments

/// Arguments, and behind them that of a place, where the test is true.
fn with_address(args: List<CArg>, test: bool, place: CPlace) -> Result<List<CArg>, NoMemory>
    ensures { IfOk result (λ all. all ≡ args ++ blocks.arg_where test (Address place)) }
{
    let mut all = args;
    if test {
        all.push(CArg::Address(place))?;
    }
    Ok(all)
}

/// Arguments, and behind them those for inputs.
fn with_inputs(
    alloc: Global,
    args: List<CArg>,
    site: &UnitSite,
    inputs: &[Expr],
) -> Result<List<CArg>, NoMemory>
    ensures { IfOk result (λ all. all ≡ args ++ map arg_of (map (made_of (site_in site.entry.now)) inputs.now)) }
{
    let mut all = args;
    for e in inputs {
        all.push(argument(expression(alloc, site, e)?))?;
    }
    Ok(all)
}

/// Arguments, and behind them those for outputs.
fn with_outputs(
    alloc: Global,
    args: List<CArg>,
    site: &UnitSite,
    outputs: &[Path],
) -> Result<List<CArg>, NoMemory>
    ensures { IfOk result (λ all. all ≡ args ++ map (output_arg (site_in site.entry.now)) outputs.now) }
{
    let mut all = args;
    for path in outputs {
        all.push(CArg::Address(place(alloc, site, path)?))?;
    }
    Ok(all)
}

/// Where the activity rests, and what it remembers, by the number of the `run`.
fn first_args(alloc: Global, view: &ActivityView, k: u32, run: &Run) -> Result<List<CArg>, NoMemory>
    ensures { IfOk result (λ args. args ≡ Address (names.callee_frame (blocks.run_word (view_in view.entry.now).site.earlier k run.entry.now.unit))
        ∷ blocks.arg_where ((view_in view.entry.now).remembers run.entry.now.unit)
        (Address (names.callee_memory (blocks.run_word (view_in view.entry.now).site.earlier k run.entry.now.unit)))) }
{
    let word = name_of(view.site.earlier, run.unit);
    let mut args = List::new(alloc);
    args.push(CArg::Address(callee_frame(alloc, k, word)?))?;
    let memory = callee_memory(alloc, k, word)?;
    with_address(args, remembers(view, run.unit), memory)
}

/// The arguments of the call of an activity.
fn run_args(alloc: Global, view: &ActivityView, k: u32, run: &Run) -> Result<List<CArg>, NoMemory>
    ensures { IfOk result (λ args. args
        ≡ blocks.run_args (view_in view.entry.now) (blocks.run_word (view_in view.entry.now).site.earlier k run.entry.now.unit)
        run.entry.now.unit (arguments_in run.entry.now)) }
{
    let args = first_args(alloc, view, k, run)?;
    let args = with_inputs(alloc, args, &view.site, run.inputs)?;
    let args = with_outputs(alloc, args, &view.site, run.outputs)?;
    let word = name_of(view.site.earlier, run.unit);
    let result = given(alloc, k, word)?;
    let args = with_address(args, has_result(view, run.unit), result)?;
    with_address(args, ends(view, run.unit), ended(alloc)?)
}

// ---- calls

/// The call of an activity.
fn called(alloc: Global, view: &ActivityView, k: u32, run: &Run) -> Result<CStmt, NoMemory>
    ensures { IfOk result (λ s. s ≡ c_calling (c_call (name_of_callee (slice_get (view_in view.entry.now).site.earlier run.entry.now.unit))
        (blocks.run_args (view_in view.entry.now) (blocks.run_word (view_in view.entry.now).site.earlier k run.entry.now.unit)
        run.entry.now.unit (arguments_in run.entry.now)))) }
{
    let name = callee(alloc, view, run.unit)?;
    let args = run_args(alloc, view, k, run)?;
    Ok(statement(CStmtKind::Call(CCall { name, args })))
}

/// The call, before which an activity that may end hasn't ended.
fn run_code(alloc: Global, view: &ActivityView, k: u32, run: &Run) -> Result<List<CStmt>, NoMemory>
    ensures { IfOk result (λ code. code
        ≡ blocks.run_code (view_in view.entry.now) (blocks.run_word (view_in view.entry.now).site.earlier k run.entry.now.unit)
        run.entry.now.unit (arguments_in run.entry.now)) }
{
    let going = set(alloc, ended(alloc)?, truth(false))?;
    let mut code = statement_where(alloc, ends(view, run.unit), going)?;
    code.push(called(alloc, view, k, run)?)?;
    Ok(code)
}

/// The target gets the result.
fn target_code(
    alloc: Global,
    view: &ActivityView,
    k: u32,
    run: &Run,
) -> Result<List<CStmt>, NoMemory>
    ensures { IfOk result (λ code. code
        ≡ blocks.target_code (view_in view.entry.now) (blocks.run_word (view_in view.entry.now).site.earlier k run.entry.now.unit)
        (arguments_in run.entry.now).target) }
{
    match run.target {
        Some(path) => {
            let at = place(alloc, &view.site, path)?;
            let value = read(given(alloc, k, name_of(view.site.earlier, run.unit))?);
            single(alloc, set(alloc, at, value)?)
        }
        None => Ok(List::new(alloc)),
    }
}

/// What is done where the activity has ended, if it may end.
fn ended_code(
    alloc: Global,
    view: &ActivityView,
    k: u32,
    run: &Run,
    on_true: &[Change],
) -> Result<List<CStmt>, NoMemory>
    ensures { IfOk result (λ code. code
        ≡ blocks.stmt_where (blocks.may_end_in (slice_get (view_in view.entry.now).site.earlier run.entry.now.unit))
        (c_if (c_read names.ended_place)
        (blocks.target_code (view_in view.entry.now) (blocks.run_word (view_in view.entry.now).site.earlier k run.entry.now.unit)
        (arguments_in run.entry.now).target ++ numbered.numbered_changes (view_in view.entry.now) on_true.now) None)) }
{
    let target = target_code(alloc, view, k, run)?;
    let then = joined(target, changes(alloc, view, on_true)?)?;
    let test = read(ended(alloc)?);
    let asked = choice(alloc, test, then, None)?;
    statement_where(alloc, ends(view, run.unit), asked)
}

/// What a `run` does where it begins, before its call.
pub fn begun(
    alloc: Global,
    view: &ActivityView,
    run: &Run,
    on_true: &[Change],
) -> Result<List<CStmt>, NoMemory>
    ensures { IfOk result (λ code. code
        ≡ numbered.numbered_begun (view_in view.entry.now) (blocks.word_at (view_in view.entry.now) run.entry.now.place run.entry.now.unit)
        run.entry.now.unit on_true.now) }
{
    let k = view.runs.find(run.place);
    let at = callee_frame(alloc, k, name_of(view.site.earlier, run.unit))?;
    let start = single(alloc, clear(alloc, at, frame(alloc, view, run.unit)?)?)?;
    joined(start, changes(alloc, view, on_true)?)
}

/// The call of a `run` that begins.
pub fn first_call(alloc: Global, view: &ActivityView, run: &Run) -> Result<List<CStmt>, NoMemory>
    ensures { IfOk result (λ code. code
        ≡ blocks.run_code (view_in view.entry.now) (blocks.word_at (view_in view.entry.now) run.entry.now.place run.entry.now.unit)
        run.entry.now.unit (arguments_in run.entry.now)) }
{
    run_code(alloc, view, view.runs.find(run.place), run)
}

/// What it does where it goes on.
pub fn resumed(
    alloc: Global,
    view: &ActivityView,
    run: &Run,
    on_true: &[Change],
) -> Result<List<CStmt>, NoMemory>
    ensures { IfOk result (λ code. code
        ≡ numbered.numbered_resumed (view_in view.entry.now) (blocks.word_at (view_in view.entry.now) run.entry.now.place run.entry.now.unit)
        run.entry.now.unit (arguments_in run.entry.now) on_true.now) }
{
    let k = view.runs.find(run.place);
    let call = run_code(alloc, view, k, run)?;
    joined(call, ended_code(alloc, view, k, run, on_true)?)
}
