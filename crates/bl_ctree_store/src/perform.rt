//! What actions make of the store.

ghost use Rattle.std.specs.Prelude.{◌≡◌, [], ◌++◌, ◌∷◌, map, IfOk, OnOk, Some, option_map, option_and_then, slice_get, unwrap_or};
ghost use Rattle.bl_tree.specs.Apart.{roots_in};
ghost use Rattle.bl_tree.specs.Numbers.{is_one};
ghost use Rattle.bl_tree.specs.Reduce.{joined};
ghost use Rattle.bl_eval.specs.Standing.{got_value};
ghost use Rattle.bl_ctree.specs.Actions.{acted_kind, given_to, is_true_value, outcome_there, result_at, value_there, values_there, with_result};
ghost use Rattle.bl_ctree.specs.Positions.{stmt_kind};
ghost use Rattle.bl_tree.specs.Static.{whole};
ghost use Rattle.bl_ctree.specs.Store.{put, put_written, remember, with_frame, with_inputs};
ghost use Rattle.bl_ctree_store.specs.Agree.{Covers, roots_of_act};
ghost use Rattle.bl_ctree_store.specs.Deeds.{Carried, LeftBy, deed_on, outcome_by, value_by};
ghost use Rattle.bl_ctree_store.specs.Glimpse.{Glimpses};
ghost use Rattle.bl_ctree_store.specs.Own.{now_there, with_value_before};
ghost use Rattle.bl_ctree_store.specs.Seen.{location_of, seen_by, setting_in, store_of, values_in};

use crate::frame::{Frame, now_at, put};
use crate::home::{Home, home_of, positions_of};
use crate::naming::{all_named, named, named_by_act};
use crate::setting::Setting;
use crate::view::{InstanceView, look};
use crate::views::Views;
use crate::writing::{put_all, puts, set_before, set_inputs, set_result};
use bl_ctree::paths::statics_of;
use bl_effects::sets::set_of;
use bl_effects::static_of;
use bl_eval::parts::with_part;
use bl_eval::{Did, Got, act, copy, value};
use bl_tree::slices::element;
use bl_tree::tree::{Expr, Path, Stmt, StmtKind};
use bl_tree::{List, NoMemory, Static, Value};
use std::alloc::Global;

/// What an action does that tests nothing.
#[derive(Clone, Copy)]
pub enum Deed<'a> {
    /// The tree alone changes.
    Silent,
    /// The statement's own act.
    Acts(&'a Stmt),
    /// The inputs of a `run` are copied to the instance that it began.
    Copies(u32, &'a [Expr]),
    /// The target of a `run` gets the result of that instance.
    Gives(u32, &'a Option<Path>),
}

fn value_seen(
    alloc: Global,
    w: &Setting,
    seen: &Option<InstanceView>,
    e: &Expr,
) -> Result<Got, NoMemory>
    ensures { IfOk result (λ got. got_value got ≡ value_by (setting_in w.now) (option_map seen_by seen.now) e.now) }
{
    match seen {
        None => Ok(Got::Trap),
        Some(seen) => value(alloc, w.program, &seen.now, &seen.before, e),
    }
}

fn keep(views: &mut Views, seen: Option<InstanceView>) {
    if let Some(view) = seen {
        views.keep(view);
    }
}

/// The value of an expression in an instance.
fn value_there(
    alloc: Global,
    w: &Setting,
    frames: &[Frame],
    views: &mut Views,
    i: u32,
    e: &Expr,
) -> Result<Got, NoMemory>
    ensures { IfOk result (λ got. got_value got ≡ value_there (setting_in w.now) (store_of frames.now) i e.now) }
{
    let asked = named(alloc, e)?;
    let seen = look(alloc, w, frames, views, i, &asked)?;
    let got = value_seen(alloc, w, &seen, e)?;
    keep(views, seen);
    Ok(got)
}

/// What is seen of the variables that some expressions name.
fn look_for(
    alloc: Global,
    w: &Setting,
    frames: &[Frame],
    views: &mut Views,
    i: u32,
    inputs: &[Expr],
) -> Result<Option<InstanceView>, NoMemory>
    ensures { IfOk result (λ made. Glimpses (joined (map roots_in inputs.now)) (setting_in w.now) (store_of frames.now) i (option_map seen_by made)) }
{
    let asked = all_named(alloc, inputs)?;
    look(alloc, w, frames, views, i, &asked)
}

/// The values of expressions in an instance; none where one traps.
fn values_there(
    alloc: Global,
    w: &Setting,
    frames: &[Frame],
    views: &mut Views,
    i: u32,
    inputs: &[Expr],
) -> Result<Option<List<Value>>, NoMemory>
    ensures { IfOk result (λ values. values ≡ values_there (setting_in w.now) (store_of frames.now) i inputs.now) }
{
    let seen = look_for(alloc, w, frames, views, i, inputs)?;
    let mut values = List::new(alloc);
    for e in inputs {
        match value_seen(alloc, w, &seen, e)? {
            Got::Val(value) => values.push(value)?,
            Got::Trap => return Ok(None),
        }
    }
    keep(views, seen);
    Ok(Some(values))
}

fn is_true(value: &Value) -> bool
    ensures { result ≡ is_true_value value.now }
{
    match value {
        Value::Number(n) => *n == 1,
        Value::Parts(_) => false,
    }
}

/// Whether a condition is true in an instance; none where it traps. Fails only for want of memory.
pub fn asks(
    alloc: Global,
    w: &Setting,
    frames: &[Frame],
    views: &mut Views,
    i: u32,
    e: &Expr,
) -> Result<Option<bool>, NoMemory>
    ensures { IfOk result (λ answer. answer ≡ option_map is_true_value (value_there (setting_in w.now) (store_of frames.now) i e.now)) }
{
    match value_there(alloc, w, frames, views, i, e)? {
        Got::Val(value) => Ok(Some(is_true(&value))),
        Got::Trap => Ok(None),
    }
}

fn outcome_seen(
    alloc: Global,
    w: &Setting,
    seen: Option<InstanceView>,
    s: &Stmt,
) -> Result<Option<InstanceView>, NoMemory>
    ensures { IfOk result (λ left. option_map values_in left ≡ outcome_by (setting_in w.now) (option_map seen_by seen) s.now) }
{
    match seen {
        None => Ok(None),
        Some(seen) => {
            let InstanceView { now, before } = seen;
            let mut now = now;
            match act(alloc, w.program, &mut now, &before, s)? {
                Did::Done => Ok(Some(InstanceView { now, before })),
                Did::Trap => Ok(None),
            }
        }
    }
}

/// The variables that an act names, after it, among others; none where it traps.
fn outcome(
    alloc: Global,
    w: &Setting,
    frames: &[Frame],
    views: &mut Views,
    i: u32,
    s: &Stmt,
) -> Result<Option<InstanceView>, NoMemory>
    ensures { IfOk result (λ left. LeftBy (setting_in w.now) (store_of frames.now) i s.now (option_map values_in left)) }
{
    let asked = named_by_act(alloc, &s.what)?;
    let seen = look(alloc, w, frames, views, i, &asked)?;
    outcome_seen(alloc, w, seen, s)
}

/// An act that writes these paths, which lead into variables that it names.
fn writes(
    alloc: Global,
    w: &Setting,
    frames: &mut Vec<Frame>,
    views: &mut Views,
    i: u32,
    s: &Stmt,
    paths: &[Static],
) -> Result<Did, NoMemory>
    requires { Covers (roots_of_act (stmt_kind s.now)) paths.now }
    ensures { Carried (option_map (λ values. put_written (setting_in w.now) i values paths.now (store_of frames.old.items))
        (outcome_there (setting_in w.now) (store_of frames.old.items) i s.now)) (store_of frames.old.items) (store_of frames.new.items) result }
{
    let Some(left) = outcome(alloc, w, frames, views, i, s)? else {
        return Ok(Did::Trap);
    };
    let puts = puts(alloc, w, i, &left.now.list, paths)?;
    put_all(frames, puts);
    views.keep(left);
    Ok(Did::Done)
}

/// What a variable of an instance is once the value is put at the home.
fn after_put(
    alloc: Global,
    frames: &[Frame],
    at: &Home,
    value: &Value,
    i: usize,
    k: usize,
) -> Result<Option<Value>, NoMemory>
    ensures { IfOk result (λ made. made ≡ now_there (put (location_of at.now) value.now (store_of frames.now)) i k) }
{
    match now_at(frames, i, k) {
        None => Ok(None),
        Some(old) => {
            let old = copy(alloc, old)?;
            if at.instance as usize == i && at.root == k {
                let new = copy(alloc, value)?;
                Ok(Some(with_part(old, &at.fields, new)))
            } else {
                Ok(Some(old))
            }
        }
    }
}

fn remember(frames: &mut Vec<Frame>, i: usize, k: usize, value: Option<Value>)
    ensures { store_of frames.new.items ≡ with_value_before i k value (store_of frames.old.items) }
{
    if let Some(value) = value {
        set_before(frames, i, k, value);
    }
}

/// A declared variable gets its value, now and before.
fn declare(
    alloc: Global,
    frames: &mut Vec<Frame>,
    i: usize,
    k: usize,
    at: &Home,
    value: Value,
) -> Result<Did, NoMemory>
    ensures { Carried (Some (with_frame i (remember k) (put (location_of at.now) value (store_of frames.old.items)))) (store_of frames.old.items)
        (store_of frames.new.items) result }
{
    let after = after_put(alloc, frames, at, &value, i, k)?;
    put(frames, at, value);
    remember(frames, i, k, after);
    Ok(Did::Done)
}

/// The value of a variable after an act.
fn value_left(alloc: Global, left: &InstanceView, k: usize) -> Result<Option<Value>, NoMemory>
    ensures { IfOk result (λ value. value ≡ slice_get (values_in left.entry.now) k) }
{
    match element(&left.now.list, k) {
        None => Ok(None),
        Some(value) => Ok(Some(copy(alloc, value)?)),
    }
}

fn declares(
    alloc: Global,
    w: &Setting,
    frames: &mut Vec<Frame>,
    views: &mut Views,
    i: u32,
    s: &Stmt,
    k: u32,
) -> Result<Did, NoMemory>
    requires { Covers (roots_of_act (stmt_kind s.now)) (whole k ∷ []) }
    ensures { Carried (option_map (λ values. with_frame i (remember k) (put_written (setting_in w.now) i values (whole k ∷ []) (store_of frames.old.items)))
        (outcome_there (setting_in w.now) (store_of frames.old.items) i s.now)) (store_of frames.old.items) (store_of frames.new.items) result }
{
    let Some(left) = outcome(alloc, w, frames, views, i, s)? else {
        return Ok(Did::Trap);
    };
    let value = value_left(alloc, &left, k as usize)?;
    views.keep(left);
    match value {
        None => {
            let before = kept(alloc, frames, i as usize, k as usize)?;
            remember(frames, i as usize, k as usize, before);
            Ok(Did::Done)
        }
        Some(value) => {
            let at = home_of(alloc, w, i, k as usize, List::new(alloc))?;
            declare(alloc, frames, i as usize, k as usize, &at, value)
        }
    }
}

/// What a variable of an instance is.
fn kept(alloc: Global, frames: &[Frame], i: usize, k: usize) -> Result<Option<Value>, NoMemory>
    ensures { IfOk result (λ made. made ≡ now_there (store_of frames.now) i k) }
{
    match now_at(frames, i, k) {
        None => Ok(None),
        Some(value) => Ok(Some(copy(alloc, value)?)),
    }
}

fn returns(
    alloc: Global,
    w: &Setting,
    frames: &mut Vec<Frame>,
    views: &mut Views,
    i: u32,
    e: &Expr,
) -> Result<Did, NoMemory>
    ensures { Carried (option_map (λ value. with_frame i (with_result value) (store_of frames.old.items))
        (value_there (setting_in w.now) (store_of frames.old.items) i e.now)) (store_of frames.old.items) (store_of frames.new.items) result }
{
    match value_there(alloc, w, frames, views, i, e)? {
        Got::Trap => Ok(Did::Trap),
        Got::Val(value) => {
            set_result(frames, i as usize, value);
            Ok(Did::Done)
        }
    }
}

fn one(alloc: Global, path: Static) -> Result<List<Static>, NoMemory>
    ensures { IfOk result (λ made. made ≡ path ∷ []) }
{
    let mut made = List::new(alloc);
    made.push(path)?;
    Ok(made)
}

/// A statement's own act.
fn acts(
    alloc: Global,
    w: &Setting,
    frames: &mut Vec<Frame>,
    views: &mut Views,
    i: u32,
    s: &Stmt,
) -> Result<Did, NoMemory>
    ensures { Carried (acted_kind (setting_in w.now) i s.now (stmt_kind s.now) (store_of frames.old.items)) (store_of frames.old.items)
        (store_of frames.new.items) result }
{
    match &s.what {
        StmtKind::Return(None) => Ok(Did::Done),
        StmtKind::Return(Some(e)) => returns(alloc, w, frames, views, i, e),
        StmtKind::Declare(k, _) => declares(alloc, w, frames, views, i, s, *k),
        StmtKind::Assign(path, _) => {
            let paths = one(alloc, static_of(alloc, path)?)?;
            writes(alloc, w, frames, views, i, s, &paths)
        }
        StmtKind::Call(_, _, outputs) => {
            let paths = set_of(statics_of(alloc, outputs)?);
            writes(alloc, w, frames, views, i, s, &paths)
        }
        StmtKind::Await(_)
        | StmtKind::Run(_, _, _, _)
        | StmtKind::If(_, _)
        | StmtKind::Cobegin(_)
        | StmtKind::When(_, _, _)
        | StmtKind::Repeat(_)
        | StmtKind::Until(_, _)
        | StmtKind::While(_, _) => Ok(Did::Trap),
    }
}

fn copies(
    alloc: Global,
    w: &Setting,
    frames: &mut Vec<Frame>,
    views: &mut Views,
    i: u32,
    callee: u32,
    inputs: &[Expr],
) -> Result<Did, NoMemory>
    ensures { Carried (option_map (λ values. with_frame callee (with_inputs values) (store_of frames.old.items))
        (values_there (setting_in w.now) (store_of frames.old.items) i inputs.now)) (store_of frames.old.items) (store_of frames.new.items) result }
{
    match values_there(alloc, w, frames, views, i, inputs)? {
        None => Ok(Did::Trap),
        Some(values) => {
            set_inputs(frames, callee as usize, values);
            Ok(Did::Done)
        }
    }
}

fn result_at(frames: &[Frame], callee: usize) -> Option<&Value>
    ensures { option_map (λ found. found.now) result ≡ result_at (store_of frames.now) callee }
{
    element(frames, callee)?.result.as_ref()
}

fn gives(
    alloc: Global,
    w: &Setting,
    frames: &mut Vec<Frame>,
    i: u32,
    callee: u32,
    target: &Option<Path>,
) -> Result<Did, NoMemory>
    ensures { Carried (Some (given_to (setting_in w.now) i target.now (result_at (store_of frames.old.items) callee) (store_of frames.old.items)))
        (store_of frames.old.items) (store_of frames.new.items) result }
{
    let Some(path) = target else {
        return Ok(Did::Done);
    };
    match result_at(frames, callee as usize) {
        None => Ok(Did::Done),
        Some(value) => {
            let value = copy(alloc, value)?;
            let to = static_of(alloc, path)?;
            let at = home_of(
                alloc,
                w,
                i,
                to.root as usize,
                positions_of(alloc, &to.fields)?,
            )?;
            put(frames, &at, value);
            Ok(Did::Done)
        }
    }
}

/// Does what an action of an instance does. After `Trap` and after want of memory the store is as before.
pub fn carry_out(
    alloc: Global,
    w: &Setting,
    frames: &mut Vec<Frame>,
    views: &mut Views,
    i: u32,
    deed: Deed,
) -> Result<Did, NoMemory>
    ensures { Carried (deed_on (setting_in w.now) i deed.entry (store_of frames.old.items)) (store_of frames.old.items) (store_of frames.new.items) result }
{
    match deed {
        Deed::Silent => Ok(Did::Done),
        Deed::Acts(s) => acts(alloc, w, frames, views, i, s),
        Deed::Copies(callee, inputs) => copies(alloc, w, frames, views, i, callee, inputs),
        Deed::Gives(callee, target) => gives(alloc, w, frames, i, callee, target),
    }
}
