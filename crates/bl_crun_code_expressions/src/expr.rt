//! The code of expressions and places.

ghost use Rattle.std.specs.Prelude.{◌≡◌, ◌+◌, ◌++◌, IfOk, length, map, OnOk};
ghost use Rattle.bl_tree.specs.declared.c.CPlace.{out-CPlace};
ghost use Rattle.bl_crun_code.specs.Code.{arg_code, args_code, code_of_call, expr_valued, or_else, reach_of_place};
ghost use Rattle.bl_crun_code_layout.specs.Places.{term_of};
ghost use Rattle.bl_crun_code_layout.specs.Views.{ground_of};
ghost use Rattle.bl_crun_code_expressions.specs.Parts.{args_of, element_code, prelude_code, seen, term_with, walk_ready};

use crate::calm::are_args_calm;
use crate::front::Front;
use crate::mode::Mode;
use crate::operand::{base_of_term, first_element, is_read, number_code, start_code};
use crate::puts::{
    put_both, put_call, put_comparison, put_element, put_negation, put_one, put_operator, put_seen,
    put_test,
};
use bl_crun_code::instruction::{Act, Operand};
use bl_crun_code_layout::here::Here;
use bl_crun_code_layout::numbers::more;
use bl_crun_code_layout::place::{IndexTerm, Walk, walk_to};
use bl_ctext::Builtin;
use bl_tree::c::{CArg, CCall, CExpr, CExprKind, CPlace, CStep};
use bl_tree::{NoMemory, Op};

/// Code that writes the value of an expression.
#[cycle(expressions)]
pub fn written(
    here: &Here<'_, '_>,
    code: &mut Front,
    e: &CExpr,
    mode: Mode,
    into: Operand,
) -> Result<(), NoMemory>
    ensures { OnOk result (code.new ≡ (expr_valued e.now (ground_of here.now)).into mode.late mode.depth into ++ code.old) }
{
    match &e.what {
        CExprKind::Literal(_, n) => code.put(Act::Constant(into, *n)),
        CExprKind::Read(at) => seen_written(here, code, at, false, mode, into),
        CExprKind::Call(called) => call(here, code, called, mode, into),
        CExprKind::Not(of) => {
            put_negation(here, code, of, mode, into)?;
            ready(here, code, of, mode)
        }
        CExprKind::Two(Op::And, left, right) => {
            let passed = otherwise(here, code, right, mode, into, 0)?;
            tested(here, code, left, mode, 0, passed)
        }
        CExprKind::Two(Op::Or, left, right) => {
            let passed = otherwise(here, code, right, mode, into, 1)?;
            tested(here, code, left, mode, passed, 0)
        }
        CExprKind::Two(op, left, right) => {
            let second = put_operator(here, code, *op, left, right, mode, into)?;
            ready(here, code, right, second)?;
            ready(here, code, left, mode)
        }
    }
}

/// The code behind which the operand of an expression has its value.
#[cycle(expressions)]
pub fn ready(here: &Here<'_, '_>, code: &mut Front, e: &CExpr, mode: Mode) -> Result<(), NoMemory>
    ensures { OnOk result (code.new ≡ ((expr_valued e.now (ground_of here.now)).ready mode.late mode.depth).code ++ code.old) }
{
    match &e.what {
        CExprKind::Literal(_, n) => number_code(code, *n, mode),
        CExprKind::Read(at) => seen_ready(here, code, at, false, mode),
        _ => written(here, code, e, mode, Operand::Temporary(mode.depth)),
    }
}

/// Code that passes so many instructions where an expression is true, and so many where it isn't.
#[cycle(expressions)]
pub fn tested(
    here: &Here<'_, '_>,
    code: &mut Front,
    e: &CExpr,
    mode: Mode,
    hold: u32,
    fail: u32,
) -> Result<(), NoMemory>
    ensures { OnOk result (code.new ≡ (expr_valued e.now (ground_of here.now)).test mode.late mode.depth hold fail ++ code.old) }
{
    match &e.what {
        CExprKind::Not(of) => tested(here, code, of, mode, fail, hold),
        CExprKind::Two(Op::And, left, right) => {
            let passed = tested_after(here, code, right, mode, hold, fail, fail)?;
            tested(here, code, left, mode, 0, passed)
        }
        CExprKind::Two(Op::Or, left, right) => {
            let passed = tested_after(here, code, right, mode, hold, fail, hold)?;
            tested(here, code, left, mode, passed, 0)
        }
        CExprKind::Two(op, left, right) => {
            let second = put_comparison(here, code, *op, left, right, mode, hold, fail)?;
            ready(here, code, right, second)?;
            ready(here, code, left, mode)
        }
        _ => {
            put_test(here, code, e, mode, hold, fail)?;
            ready(here, code, e, mode)
        }
    }
}

/// The code of a test, and how many instructions are passed where its code and so many more are.
#[cycle(expressions)]
fn tested_after(
    here: &Here<'_, '_>,
    code: &mut Front,
    e: &CExpr,
    mode: Mode,
    hold: u32,
    fail: u32,
    besides: u32,
) -> Result<u32, NoMemory>
    ensures code { OnOk result (code.new ≡ (expr_valued e.now (ground_of here.now)).test mode.late mode.depth hold fail ++ code.old) }
    ensures passed { IfOk result (λ n. n ≡ length ((expr_valued e.now (ground_of here.now)).test mode.late mode.depth hold fail) + besides) }
{
    let end = code.len();
    tested(here, code, e, mode, hold, fail)?;
    let passed = more(besides, code.len() - end)?;
    Ok(passed)
}

/// Code that writes the value of an expression, or else this number where its first instruction and those up to the
/// number are passed, and how many those are.
#[cycle(expressions)]
fn otherwise(
    here: &Here<'_, '_>,
    code: &mut Front,
    e: &CExpr,
    mode: Mode,
    into: Operand,
    n: i128,
) -> Result<u32, NoMemory>
    ensures code { OnOk result (code.new ≡ or_else ((expr_valued e.now (ground_of here.now)).into mode.late mode.depth into) into n ++ code.old) }
    ensures passed { IfOk result (λ n. n ≡ length ((expr_valued e.now (ground_of here.now)).into mode.late mode.depth into) + 1) }
{
    code.put(Act::Constant(into, n))?;
    code.put(Act::Skip(1))?;
    let end = code.len();
    written(here, code, e, mode, into)?;
    let passed = more(1, code.len() - end)?;
    Ok(passed)
}

/// The code behind which an index is taken that an expression chooses, from the cell whose number an operand has.
#[cycle(expressions)]
fn indexed(
    here: &Here<'_, '_>,
    code: &mut Front,
    e: &CExpr,
    term: IndexTerm,
    base: Operand,
    mode: Mode,
) -> Result<(), NoMemory>
    ensures { OnOk result (code.new ≡ element_code mode.late mode.depth base (term_with term (expr_valued e.now (ground_of here.now))) ++ code.old) }
{
    let behind = mode.behind(base)?;
    put_element(here, code, e, term, base, mode.depth, behind)?;
    ready(here, code, e, behind)
}

/// The code behind which an index of a place is taken, from the cell whose number an operand has. No walk has an index
/// that isn't there.
#[cycle(expressions)]
fn element(
    here: &Here<'_, '_>,
    code: &mut Front,
    at: &CPlace,
    term: IndexTerm,
    base: Operand,
    mode: Mode,
) -> Result<(), NoMemory>
    ensures { OnOk result (code.new ≡ element_code mode.late mode.depth base (term_of (ground_of here.now) (out-CPlace at.now).steps term) ++ code.old) }
{
    match at.steps.get(term.step) {
        Some(
            CStep {
                index: Some(index),
                ..
            },
        ) => indexed(here, code, &index.at, term, base, mode),
        _ => first_element(code, term, base, mode),
    }
}

/// The code behind which a place that was walked to stands.
#[cycle(expressions)]
pub fn place(
    here: &Here<'_, '_>,
    code: &mut Front,
    at: &CPlace,
    walk: &Walk<'_>,
    mode: Mode,
) -> Result<(), NoMemory>
    ensures { OnOk result (code.new ≡ (walk_ready (ground_of here.now) at.now walk.now mode.late mode.depth).code ++ code.old) }
{
    for k in (0..walk.terms.len()).rev() {
        let base = base_of_term(k, walk.start, mode);
        element(here, code, at, walk.terms[k], base, mode)?;
    }
    start_code(code, walk.start, mode)
}

/// Code that writes what is seen at a place: what is read there, or the number of its first cell.
#[cycle(expressions)]
fn seen_written(
    here: &Here<'_, '_>,
    code: &mut Front,
    at: &CPlace,
    address: bool,
    mode: Mode,
    into: Operand,
) -> Result<(), NoMemory>
    ensures { OnOk result (code.new ≡ (seen address (reach_of_place at.now (ground_of here.now))).into mode.late mode.depth into ++ code.old) }
{
    let walk = walk_to(here, at)?;
    put_seen(code, &walk, address, mode, into)?;
    place(here, code, at, &walk, mode)
}

/// The code behind which the operand of what is seen at a place has its number.
#[cycle(expressions)]
fn seen_ready(
    here: &Here<'_, '_>,
    code: &mut Front,
    at: &CPlace,
    address: bool,
    mode: Mode,
) -> Result<(), NoMemory>
    ensures { OnOk result (code.new ≡ ((seen address (reach_of_place at.now (ground_of here.now))).ready mode.late mode.depth).code ++ code.old) }
{
    let walk = walk_to(here, at)?;
    if is_read(&walk, address) && !mode.late {
        seen_written(
            here,
            code,
            at,
            address,
            mode,
            Operand::Temporary(mode.depth),
        )
    } else {
        place(here, code, at, &walk, mode)
    }
}

/// Code that writes the value of an argument.
#[cycle(expressions)]
fn arg_written(
    here: &Here<'_, '_>,
    code: &mut Front,
    arg: &CArg,
    mode: Mode,
    into: Operand,
) -> Result<(), NoMemory>
    ensures { OnOk result (code.new ≡ (arg_code arg.now (ground_of here.now)).into mode.late mode.depth into ++ code.old) }
{
    match arg {
        CArg::Value(e) => written(here, code, e, mode, into),
        CArg::Address(at) => seen_written(here, code, at, true, mode, into),
    }
}

/// The code behind which the operand of an argument has its value.
#[cycle(expressions)]
fn arg_ready(here: &Here<'_, '_>, code: &mut Front, arg: &CArg, mode: Mode) -> Result<(), NoMemory>
    ensures { OnOk result (code.new ≡ ((arg_code arg.now (ground_of here.now)).ready mode.late mode.depth).code ++ code.old) }
{
    match arg {
        CArg::Value(e) => ready(here, code, e, mode),
        CArg::Address(at) => seen_ready(here, code, at, true, mode),
    }
}

/// Code that makes arguments the numbers of temporaries, one behind the other.
#[cycle(expressions)]
fn args_written(
    here: &Here<'_, '_>,
    code: &mut Front,
    args: &[CArg],
    mode: Mode,
) -> Result<(), NoMemory>
    ensures { OnOk result (code.new ≡ args_code mode.late mode.depth (args_of (ground_of here.now) args.now) ++ code.old) }
{
    for k in (0..args.len()).rev() {
        let depth = more(mode.depth, k)?;
        let late = mode.late;
        arg_written(
            here,
            code,
            &args[k],
            Mode { late, depth },
            Operand::Temporary(depth),
        )?;
    }
    Ok(())
}

/// Code that writes what a function of the prelude gives.
#[cycle(expressions)]
fn prelude(
    here: &Here<'_, '_>,
    code: &mut Front,
    builtin: Builtin,
    list: &[CArg],
    mode: Mode,
    into: Operand,
) -> Result<(), NoMemory>
    ensures { OnOk result (code.new ≡ prelude_code builtin (args_of (ground_of here.now) list.now) mode.late mode.depth into ++ code.old) }
{
    match list {
        [only] => {
            put_one(here, code, builtin, only, mode, into)?;
            arg_ready(here, code, only, mode)
        }
        [first, second] => {
            let behind = put_both(here, code, builtin, first, second, mode, into)?;
            arg_ready(here, code, second, behind)?;
            arg_ready(here, code, first, mode)
        }
        list => {
            code.put(Act::Stop)?;
            args_written(here, code, list, mode)
        }
    }
}

/// Code that writes what a call gives.
#[cycle(expressions)]
pub fn call(
    here: &Here<'_, '_>,
    code: &mut Front,
    called: &CCall,
    mode: Mode,
    into: Operand,
) -> Result<(), NoMemory>
    ensures { OnOk result (code.new ≡ (code_of_call called.now (ground_of here.now)).into mode.late mode.depth into ++ code.old) }
{
    match here.builtins.find(&called.name) {
        Some(builtin) => prelude(here, code, builtin, &called.args, mode, into),
        None => {
            let late = are_args_calm(here, &called.args)?;
            put_call(here, code, called, mode, into)?;
            let depth = mode.depth;
            args_written(here, code, &called.args, Mode { late, depth })
        }
    }
}
