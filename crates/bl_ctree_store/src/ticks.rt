//! The store at the start of a run and of a tick, and the row of outputs.

ghost use Rattle.std.specs.Prelude.{◌≡◌, ◌+◌, true, pos, map, IfOk, OnErr, OnOk, option_map, unwrap_or, length};
ghost use Rattle.bl_ctree.specs.Instances.{unit_at};
ghost use Rattle.bl_ctree.specs.Store.{aged, first_store, frame_at_first, number_or_zero, outputs_row, woken_store, zero_result, zeros};
ghost use Rattle.bl_ctree_store.specs.Ageing.{are_numbers, are_plain, as_number, is_number, is_plain};
ghost use Rattle.bl_ctree_store.specs.Own.{now_there};
ghost use Rattle.bl_ctree_store.specs.Seen.{frame_of, setting_in, store_of};

use crate::callee::unit_at;
use crate::frame::{Frame, now_at};
use crate::setting::Setting;
use crate::writing::{set_element, set_inputs};
use bl_ctree::instance::Instance;
use bl_eval::{copy, zero_value};
use bl_tree::slices::element;
use bl_tree::tree::{StructDef, Var};
use bl_tree::{List, NoMemory, Row, Scalar, Value};
use std::alloc::Global;

fn zeros(alloc: Global, structs: &[StructDef], vars: &[Var]) -> Result<List<Value>, NoMemory>
    ensures { IfOk result (λ made. made ≡ zeros structs.now vars.now) }
{
    let mut made = List::new(alloc);
    for var in vars {
        made.push(zero_value(alloc, structs, &var.ty)?)?;
    }
    Ok(made)
}

fn zero_result(ty: Option<Scalar>) -> Option<Value>
    ensures { result ≡ zero_result ty }
{
    match ty {
        None => None,
        Some(_) => Some(Value::Number(0)),
    }
}

fn first_frame(alloc: Global, w: &Setting, instance: &Instance) -> Result<Frame, NoMemory>
    ensures { IfOk result (λ made. frame_of made ≡ frame_at_first (setting_in w.now) instance.now) }
{
    match element(&w.program.units, instance.unit as usize) {
        None => Ok(Frame {
            now: Vec::new(alloc),
            before: Vec::new(alloc),
            result: None,
        }),
        Some(unit) => {
            let now = zeros(alloc, &w.program.structs, &unit.vars)?;
            let before = zeros(alloc, &w.program.structs, &unit.vars)?;
            Ok(Frame {
                now: now.into_vec(),
                before: before.into_vec(),
                result: zero_result(unit.result),
            })
        }
    }
}

/// The store of a run that has not begun: zeros everywhere. Fails only for want of memory, as what follows.
pub fn first_frames(alloc: Global, w: &Setting) -> Result<List<Frame>, NoMemory>
    ensures { IfOk result (λ made. store_of made ≡ first_store (setting_in w.now)) }
{
    let mut made = List::new(alloc);
    for instance in w.instances.iter() {
        made.push(first_frame(alloc, w, instance)?)?;
    }
    Ok(made)
}

fn copy_all(alloc: Global, values: &[Value]) -> Result<List<Value>, NoMemory>
    ensures { IfOk result (λ made. made ≡ values.now) }
{
    let mut made = List::new(alloc);
    for value in values {
        made.push(copy(alloc, value)?)?;
    }
    Ok(made)
}

fn copy_result(alloc: Global, given: &Option<Value>) -> Result<Option<Value>, NoMemory>
    ensures { IfOk result (λ made. made ≡ given.now) }
{
    match given {
        None => Ok(None),
        Some(value) => Ok(Some(copy(alloc, value)?)),
    }
}

/// A frame whose values before are those now.
fn aged(alloc: Global, frame: &Frame) -> Result<Frame, NoMemory>
    ensures { IfOk result (λ made. frame_of made ≡ aged (frame_of frame.entry.now)) }
{
    let now = copy_all(alloc, frame.now.as_slice())?;
    let before = copy_all(alloc, frame.now.as_slice())?;
    Ok(Frame {
        now: now.into_vec(),
        before: before.into_vec(),
        result: copy_result(alloc, &frame.result)?,
    })
}

/// The frames once the values before are those now.
pub fn all_aged(alloc: Global, frames: &[Frame]) -> Result<List<Frame>, NoMemory>
    ensures { IfOk result (λ made. store_of made ≡ map aged (store_of frames.now)) }
{
    let mut made = List::new(alloc);
    for frame in frames {
        made.push(aged(alloc, frame)?)?;
    }
    Ok(made)
}

fn numbers(alloc: Global, row: &Row) -> Result<List<Value>, NoMemory>
    ensures { IfOk result (λ made. made ≡ map Value.Number row.now) }
{
    let mut made = List::new(alloc);
    for k in 0..row.len() {
        made.push(Value::Number(row.at(k)))?;
    }
    Ok(made)
}

fn is_number(value: &Value) -> bool
    ensures { result ≡ is_number value.now }
{
    match value {
        Value::Number(_) => true,
        Value::Parts(_) => false,
    }
}

fn are_numbers(values: &[Value]) -> bool
    ensures { result ≡ are_numbers values.now }
{
    for value in values {
        if !is_number(value) {
            return false;
        }
    }
    true
}

/// Whether the values before can become those now without memory.
fn is_plain(frame: &Frame) -> bool
    ensures { result ≡ is_plain (frame_of frame.entry.now) }
{
    frame.before.len() == frame.now.len() && are_numbers(frame.now.as_slice())
}

fn are_plain(frames: &[Frame]) -> bool
    ensures { result ≡ are_plain (store_of frames.now) }
{
    for frame in frames {
        if !is_plain(frame) {
            return false;
        }
    }
    true
}

fn as_number(value: &Value) -> Value
    ensures { result ≡ as_number value.now }
{
    Value::Number(number(value))
}

/// The values become the numbers of others, of which there are as many.
fn renumber(values: &mut Vec<Value>, others: &[Value])
    requires { length values.old.items ≡ length others.now }
    ensures { values.new.items ≡ map as_number others.now }
{
    for k in 0..others.len() {
        set_element(values, k, as_number(&others[k]));
    }
}

/// The values before become those now, which are numbers.
fn age(frame: &mut Frame)
    requires { is_plain (frame_of frame.old) ≡ true }
    ensures { frame_of frame.new ≡ aged (frame_of frame.old) }
{
    renumber(&mut frame.before, frame.now.as_slice());
}

fn age_all(frames: &mut Vec<Frame>)
    requires { are_plain (store_of frames.old.items) ≡ true }
    ensures { store_of frames.new.items ≡ map aged (store_of frames.old.items) }
{
    for k in 0..frames.len() {
        age(&mut frames[k]);
    }
}

/// The values before become those now, where they lie if that takes no memory.
fn grow_old(alloc: Global, frames: &mut Vec<Frame>) -> Result<(), NoMemory>
    ensures aged { OnOk result (store_of frames.new.items ≡ map aged (store_of frames.old.items)) }
    ensures memory { OnErr result (frames.new.items ≡ frames.old.items) }
{
    if are_plain(frames.as_slice()) {
        age_all(frames);
    } else {
        *frames = all_aged(alloc, frames.as_slice())?.into_vec();
    }
    Ok(())
}

/// The store becomes that at the start of a tick over the row. After want of memory it is as before.
pub fn wake(alloc: Global, frames: &mut Vec<Frame>, row: &Row) -> Result<(), NoMemory>
    ensures woken { OnOk result (store_of frames.new.items ≡ woken_store row.now (store_of frames.old.items)) }
    ensures memory { OnErr result (frames.new.items ≡ frames.old.items) }
{
    let inputs = numbers(alloc, row)?;
    grow_old(alloc, frames)?;
    set_inputs(frames, 0, inputs);
    Ok(())
}

fn number(value: &Value) -> i128
    ensures { result ≡ number_or_zero value.now }
{
    match value {
        Value::Number(n) => *n,
        Value::Parts(_) => 0,
    }
}

fn output_at(frames: &[Frame], inputs: u32, k: u32) -> i128
    ensures { result ≡ unwrap_or (option_map number_or_zero (now_there (store_of frames.now) 0 (inputs + k))) (pos 0) }
{
    match now_at(frames, 0, inputs as usize + k as usize) {
        None => 0,
        Some(value) => number(value),
    }
}

fn entry_inputs(w: &Setting) -> u32
    ensures { result ≡ unwrap_or (option_map (λ unit. unit.inputs) (unit_at (setting_in w.now) 0)) 0 }
{
    match unit_at(w, 0) {
        None => 0,
        Some(unit) => unit.inputs,
    }
}

/// The row of the entry's outputs.
pub fn outputs(w: &Setting, frames: &[Frame], into: &mut Row)
    requires { length into.old ≡ length (outputs_row (setting_in w.now) (store_of frames.now)) }
    ensures { into.new ≡ outputs_row (setting_in w.now) (store_of frames.now) }
{
    let inputs = entry_inputs(w);
    for k in 0..into.len() {
        into.set(k, output_at(frames, inputs, k));
    }
}
