//! Values of expressions, and functions executed over variables of their own.

ghost use Rattle.std.specs.Prelude.{◌≡◌, true, false, IfOk, map, option_map, option_and_then, slice_get};
ghost use Rattle.bl_tree.specs.declared.tree.StmtKind.{out-StmtKind};
ghost use Rattle.bl_eval.specs.Changes.{all_changed, choice_of, ended, part_of_path, scope_in, targets_of, view_in};
ghost use Rattle.bl_eval.specs.Functions.{acted, call_of, callees_of, condition, does, first_true_choice, in_order, looped, most_turns};
ghost use Rattle.bl_eval.specs.Meaning.{meaning_of, path_meaning_of, positions_of, values_of};

use crate::datum::{Datum, Left, Put, Target};
use crate::operators::{cast, decides, one, operand, plain_value, two};
use crate::steps::{
    after_last, back, declared_zero, frame, is_true, left, make, position, previous, reading,
    result_of, returned, single, with_current,
};
use bl_tree::slices::element;
use bl_tree::tree::{
    Arm, Expr, ExprKind, Part, Path, Stmt, StmtKind, StructDef, Unit, UnitKind, Var,
};
use bl_tree::{List, NoMemory, Value};
use std::alloc::Global;

/// How many turns of a loop may begin since it was entered.
pub const MOST_TURNS: u32 = 65_536;

/// What a statement sees: the structs, the units before its own, and the variables of its own.
#[derive(Clone, Copy)]
pub struct Site<'a> {
    pub structs: &'a [StructDef],
    pub earlier: &'a [Unit],
    pub vars: &'a [Var],
}

/// The values of a unit's variables: those of this moment, and those at the end of the previous tick.
#[derive(Clone, Copy)]
pub struct View<'a> {
    pub now: &'a [Value],
    pub before: &'a [Value],
}

/// How a statement of a function ended.
#[derive(Drop)]
pub enum Flow {
    On,
    Back(Option<Datum>),
    Trap,
}

/// What an expression gives; `None` where it traps.
#[cycle(evaluation)]
pub fn evaluate(
    alloc: Global,
    site: &Site,
    view: &View,
    e: &Expr,
) -> Result<Option<Datum>, NoMemory>
    ensures { IfOk result (λ given. given ≡ meaning_of (scope_in site.entry.now) e.now (view_in view.entry.now)) }
{
    match &e.what {
        ExprKind::Literal(n, ty) => Ok(Some(Datum::Scalar(*ty, *n))),
        ExprKind::Read(path) => {
            let Some(positions) = positions(alloc, site, view, &path.parts)? else {
                return Ok(None);
            };
            reading(alloc, view.now, path.root as usize, &positions, &path.ty)
        }
        ExprKind::Prev(k) => previous(alloc, site.vars, view.before, *k as usize),
        ExprKind::One(op, a) => {
            let a = operand(evaluate(alloc, site, view, a)?);
            Ok(one(*op, a))
        }
        ExprKind::Two(op, a, b) => {
            let Some(a) = operand(evaluate(alloc, site, view, a)?) else {
                return Ok(None);
            };
            if decides(*op, a) {
                return Ok(Some(Datum::Scalar(a.ty, a.n)));
            }
            let b = operand(evaluate(alloc, site, view, b)?);
            Ok(two(*op, a, b))
        }
        ExprKind::Cast(target, a) => {
            let a = operand(evaluate(alloc, site, view, a)?);
            Ok(cast(*target, a))
        }
        ExprKind::Call(f, inputs) => {
            let Some(values) = arguments(alloc, site, view, inputs)? else {
                return Ok(None);
            };
            let left = call(alloc, site.structs, site.earlier, *f as usize, values)?;
            Ok(result_of(left))
        }
    }
}

/// The positions that the parts of a path stand for; `None` where an index traps or is below 0.
#[cycle(evaluation)]
fn positions(
    alloc: Global,
    site: &Site,
    view: &View,
    parts: &[Part],
) -> Result<Option<List<usize>>, NoMemory>
    ensures { IfOk result (λ positions. positions ≡ positions_of (map (part_of_path (scope_in site.entry.now)) parts.now) (view_in view.entry.now)) }
{
    let mut positions = List::new(alloc);
    for part in parts {
        match position_at(alloc, site, view, part)? {
            Some(k) => positions.push(k)?,
            None => return Ok(None),
        }
    }
    Ok(Some(positions))
}

#[cycle(evaluation)]
fn position_at(
    alloc: Global,
    site: &Site,
    view: &View,
    part: &Part,
) -> Result<Option<usize>, NoMemory>
    ensures { IfOk result (λ position. position ≡ part_of_path (scope_in site.entry.now) part.now (view_in view.entry.now)) }
{
    match part {
        Part::Field(k) => Ok(Some(*k as usize)),
        Part::Index(e) => Ok(position(operand(evaluate(alloc, site, view, e)?))),
    }
}

/// The values of the expressions; `None` where one traps.
#[cycle(evaluation)]
fn arguments(
    alloc: Global,
    site: &Site,
    view: &View,
    inputs: &[Expr],
) -> Result<Option<List<Value>>, NoMemory>
    ensures { IfOk result (λ values. values ≡ values_of (map (meaning_of (scope_in site.entry.now)) inputs.now) (view_in view.entry.now)) }
{
    let mut values = List::new(alloc);
    for e in inputs {
        match evaluate(alloc, site, view, e)? {
            Some(datum) => values.push(plain_value(datum))?,
            None => return Ok(None),
        }
    }
    Ok(Some(values))
}

/// What a function leaves when it is called; `None` where it traps, and where the unit is an activity.
#[cycle(evaluation)]
pub fn call(
    alloc: Global,
    structs: &[StructDef],
    earlier: &[Unit],
    f: usize,
    arguments: List<Value>,
) -> Result<Option<Left>, NoMemory>
    ensures { IfOk result (λ left. left ≡ option_and_then (λ callee. callee arguments) (slice_get (callees_of structs.now earlier.now) f)) }
{
    let Some(unit) = element(earlier, f) else {
        return Ok(None);
    };
    match unit.kind {
        UnitKind::Activity => return Ok(None),
        UnitKind::Function => {}
    }
    let mut frame = frame(alloc, structs, unit, arguments)?;
    let site = Site {
        structs,
        earlier: &earlier[..f],
        vars: &unit.vars,
    };
    let flow = block(alloc, &site, &mut frame, &unit.body)?;
    left(alloc, unit, frame, flow)
}

/// Executes statements in order.
#[cycle(evaluation)]
fn block(
    alloc: Global,
    site: &Site,
    frame: &mut Vec<Value>,
    body: &[Stmt],
) -> Result<Flow, NoMemory>
    ensures { IfOk result (λ flow. ended flow frame.new.items ≡ in_order (map (does (scope_in site.entry.now)) body.now) frame.old.items) }
{
    for s in body {
        match statement(alloc, site, frame, s)? {
            Flow::On => {}
            flow => return Ok(flow),
        }
    }
    Ok(Flow::On)
}

#[cycle(evaluation)]
fn statement(alloc: Global, site: &Site, frame: &mut Vec<Value>, s: &Stmt) -> Result<Flow, NoMemory>
    ensures { IfOk result (λ flow. ended flow frame.new.items ≡ does (scope_in site.entry.now) s.now frame.old.items) }
{
    match &s.what {
        StmtKind::Declare(_, _) | StmtKind::Assign(_, _) | StmtKind::Call(_, _, _) => {
            let view = View {
                now: frame.as_slice(),
                before: frame.as_slice(),
            };
            let changes = changes(alloc, site, &view, &s.what)?;
            Ok(make(frame, changes))
        }
        StmtKind::If(arms, other) => choice(alloc, site, frame, arms, other),
        StmtKind::Repeat(body) => turns(alloc, site, frame, None, body, None),
        StmtKind::Until(body, e) => turns(alloc, site, frame, None, body, Some(e)),
        StmtKind::While(e, body) => turns(alloc, site, frame, Some(e), body, None),
        StmtKind::Return(Some(e)) => {
            let view = View {
                now: frame.as_slice(),
                before: frame.as_slice(),
            };
            Ok(back(evaluate(alloc, site, &view, e)?))
        }
        StmtKind::Return(None) => Ok(Flow::Back(None)),
        StmtKind::Await(_)
        | StmtKind::Run(_, _, _, _)
        | StmtKind::Cobegin(_)
        | StmtKind::When(_, _, _) => { Ok(Flow::Trap) }
    }
}

/// Whether a condition holds, `without` where there is none; `None` where it traps.
#[cycle(evaluation)]
fn condition(
    alloc: Global,
    site: &Site,
    frame: &[Value],
    e: Option<&Expr>,
    without: bool,
) -> Result<Option<bool>, NoMemory>
    ensures { IfOk result (λ holds. holds ≡ condition (scope_in site.entry.now) (option_map (λ e. e.now) e.entry) without frame.now) }
{
    match e {
        None => Ok(Some(without)),
        Some(e) => {
            let view = View {
                now: frame,
                before: frame,
            };
            Ok(is_true(operand(evaluate(alloc, site, &view, e)?)))
        }
    }
}

/// The first arm whose test is true, and else the other block.
#[cycle(evaluation)]
fn choice(
    alloc: Global,
    site: &Site,
    frame: &mut Vec<Value>,
    arms: &[Arm],
    other: &[Stmt],
) -> Result<Flow, NoMemory>
    ensures { IfOk result (λ flow. ended flow frame.new.items
        ≡ first_true_choice (map (choice_of (scope_in site.entry.now)) arms.now)
        (in_order (map (does (scope_in site.entry.now)) other.now)) frame.old.items) }
{
    for arm in arms {
        match condition(alloc, site, frame.as_slice(), Some(&arm.test), true)? {
            None => return Ok(Flow::Trap),
            Some(true) => return block(alloc, site, frame, &arm.body),
            Some(false) => {}
        }
    }
    block(alloc, site, frame, other)
}

/// A loop that goes on where the one condition holds before a turn and the other does not hold after it.
#[cycle(evaluation)]
fn turns(
    alloc: Global,
    site: &Site,
    frame: &mut Vec<Value>,
    goes: Option<&Expr>,
    body: &[Stmt],
    ends: Option<&Expr>,
) -> Result<Flow, NoMemory>
    ensures { IfOk result (λ flow. ended flow frame.new.items
        ≡ looped (condition (scope_in site.entry.now) (option_map (λ e. e.now) goes.entry) true) (in_order (map (does (scope_in site.entry.now)) body.now))
        (condition (scope_in site.entry.now) (option_map (λ e. e.now) ends.entry) false) most_turns frame.old.items) }
{
    for _ in 0..MOST_TURNS {
        match condition(alloc, site, frame.as_slice(), goes, true)? {
            None => return Ok(Flow::Trap),
            Some(false) => return Ok(Flow::On),
            Some(true) => {}
        }
        match block(alloc, site, frame, body)? {
            Flow::On => {}
            flow => return Ok(flow),
        }
        match condition(alloc, site, frame.as_slice(), ends, false)? {
            None => return Ok(Flow::Trap),
            Some(true) => return Ok(Flow::On),
            Some(false) => {}
        }
    }
    Ok(after_last(condition(alloc, site, frame.as_slice(), goes, true)?))
}

/// What an assignment, a declaration or a call changes; `None` where it traps.
#[cycle(evaluation)]
pub fn changes(
    alloc: Global,
    site: &Site,
    view: &View,
    what: &StmtKind,
) -> Result<Option<List<Put>>, NoMemory>
    ensures { IfOk result (λ changes. option_map (λ puts. all_changed puts view.entry.now.now.now) changes
        ≡ acted (scope_in site.entry.now) (out-StmtKind what.now) (view_in view.entry.now)) }
{
    match what {
        StmtKind::Declare(k, None) => declared_zero(
            alloc,
            site.structs,
            site.vars,
            view.now,
            *k as usize,
        ),
        StmtKind::Declare(k, Some(e)) => {
            let Some(given) = evaluate(alloc, site, view, e)? else {
                return Ok(None);
            };
            single(
                alloc,
                view.now,
                *k as usize,
                List::new(alloc),
                plain_value(given),
            )
        }
        StmtKind::Assign(path, e) => {
            let Some(given) = evaluate(alloc, site, view, e)? else {
                return Ok(None);
            };
            let Some(positions) = positions(alloc, site, view, &path.parts)? else {
                return Ok(None);
            };
            single(
                alloc,
                view.now,
                path.root as usize,
                positions,
                plain_value(given),
            )
        }
        StmtKind::Call(f, inputs, outputs) => procedure(
            alloc,
            site,
            view,
            *f as usize,
            inputs,
            outputs,
        ),
        _ => Ok(None),
    }
}

/// What a call of a function changes: its outputs stand for the paths.
#[cycle(evaluation)]
fn procedure(
    alloc: Global,
    site: &Site,
    view: &View,
    f: usize,
    inputs: &[Expr],
    outputs: &[Path],
) -> Result<Option<List<Put>>, NoMemory>
    ensures { IfOk result (λ changes. option_map (λ puts. all_changed puts view.entry.now.now.now) changes
        ≡ call_of (scope_in site.entry.now) f inputs.now outputs.now (view_in view.entry.now)) }
{
    let Some(targets) = targets(alloc, site, view, outputs)? else {
        return Ok(None);
    };
    let Some(inputs) = arguments(alloc, site, view, inputs)? else {
        return Ok(None);
    };
    let Some(arguments) = with_current(alloc, view.now, inputs, &targets)? else {
        return Ok(None);
    };
    let left = call(alloc, site.structs, site.earlier, f, arguments)?;
    returned(alloc, targets, left)
}

/// Where the paths lead; `None` where an index traps or is below 0.
#[cycle(evaluation)]
fn targets(
    alloc: Global,
    site: &Site,
    view: &View,
    outputs: &[Path],
) -> Result<Option<List<Target>>, NoMemory>
    ensures { IfOk result (λ targets. targets ≡ targets_of (map (path_meaning_of (scope_in site.entry.now)) outputs.now) (view_in view.entry.now)) }
{
    let mut targets = List::new(alloc);
    for path in outputs {
        match positions(alloc, site, view, &path.parts)? {
            Some(positions) => targets.push(Target {
                root: path.root as usize,
                positions,
            })?,
            None => return Ok(None),
        }
    }
    Ok(Some(targets))
}
