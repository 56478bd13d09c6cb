//! What acts write, and changes of one instance's values.

ghost use Rattle.std.specs.Prelude.{◌≡◌, ◌++◌, ◌<◌, Some, pos, drop, length, IfOk, OnOk, slice_get, slice_set};
ghost use Rattle.bl_ctree.specs.Actions.{with_result};
ghost use Rattle.bl_ctree.specs.Store.{Store, put_path, put_written, with_frame, with_inputs};
ghost use Rattle.bl_ctree_store.specs.Own.{with_before};
ghost use Rattle.bl_ctree_store.specs.Seen.{put_all, setting_in, store_of};

use crate::frame::{Frame, put};
use crate::home::{Home, home_of, positions_of};
use crate::setting::Setting;
use bl_eval::{copy, parts};
use bl_tree::{List, NoMemory, Static, Value};
use std::alloc::Global;
use std::mem;

/// A value that is to be put at a home.
#[derive(Drop)]
pub struct Put {
    pub at: Home,
    pub value: Value,
}

/// Appends what stands at a static path of variables of an instance, for the path's home.
fn append_put(
    alloc: Global,
    w: &Setting,
    i: u32,
    variables: &[Value],
    path: &Static,
    into: &mut List<Put>,
) -> Result<(), NoMemory>
    ensures { OnOk result ((store : Store) → put_all into.new store ≡ put_path (setting_in w.now) i variables.now path.now (put_all into.old store)) }
{
    let root = path.root as usize;
    let fields = positions_of(alloc, &path.fields)?;
    match parts::find(variables, root, &fields) {
        None => Ok(()),
        Some(value) => {
            let at = home_of(alloc, w, i, root, fields)?;
            let value = copy(alloc, value)?;
            into.push(Put { at, value })?;
            Ok(())
        }
    }
}

/// What an act puts that left these variables of an instance and wrote these static paths. Fails only for want of memory.
pub fn puts(
    alloc: Global,
    w: &Setting,
    i: u32,
    variables: &[Value],
    paths: &[Static],
) -> Result<List<Put>, NoMemory>
    ensures { IfOk result (λ made. (store : Store) → put_all made store ≡ put_written (setting_in w.now) i variables.now paths.now store) }
{
    let mut made = List::new(alloc);
    for path in paths {
        append_put(alloc, w, i, variables, path, &mut made)?;
    }
    Ok(made)
}

/// Puts each value at its home, one after another.
pub fn put_all(frames: &mut Vec<Frame>, puts: List<Put>)
    ensures { store_of frames.new.items ≡ put_all puts (store_of frames.old.items) }
{
    for each in puts.into_vec() {
        let Put { at, value } = each;
        put(frames, &at, value);
    }
}

/// Takes a value out of a list.
fn take_at(values: &mut Vec<Value>, k: usize) -> Value
    requires { k < length values.old.items }
    ensures was { slice_get values.old.items k ≡ Some result }
    ensures left { values.new.items ≡ slice_set values.old.items k (Value.Number (pos 0)) }
{
    mem::replace(&mut values[k], Value::Number(0))
}

/// The first values become the inputs, of which there are no more than values.
fn fill(values: &mut Vec<Value>, inputs: Vec<Value>)
    requires { length inputs.items < length values.old.items }
    ensures { values.new.items ≡ inputs.items ++ drop (length inputs.items) values.old.items }
{
    let mut inputs = inputs;
    for k in 0..inputs.len() {
        let value = take_at(&mut inputs, k);
        set_element(values, k, value);
    }
}

fn overwrite(values: &mut Vec<Value>, inputs: Vec<Value>)
    ensures { values.new.items ≡ inputs.items ++ drop (length inputs.items) values.old.items }
{
    if inputs.len() < values.len() {
        fill(values, inputs);
    } else {
        *values = inputs;
    }
}

/// The first values of an instance become the inputs.
pub fn set_inputs(frames: &mut Vec<Frame>, i: usize, inputs: List<Value>)
    ensures { store_of frames.new.items ≡ with_frame i (with_inputs inputs) (store_of frames.old.items) }
{
    if i < frames.len() {
        overwrite(&mut frames[i].now, inputs.into_vec());
    }
}

/// Sets the result of an instance.
pub fn set_result(frames: &mut Vec<Frame>, i: usize, value: Value)
    ensures { store_of frames.new.items ≡ with_frame i (with_result value) (store_of frames.old.items) }
{
    if i < frames.len() {
        frames[i].result = Some(value);
    }
}

pub fn set_element(values: &mut Vec<Value>, k: usize, value: Value)
    ensures { values.new.items ≡ slice_set values.old.items k value }
{
    if k < values.len() {
        values[k] = value;
    }
}

/// Sets the value before of a variable of an instance.
pub fn set_before(frames: &mut Vec<Frame>, i: usize, k: usize, value: Value)
    ensures { store_of frames.new.items ≡ with_frame i (with_before k value) (store_of frames.old.items) }
{
    if i < frames.len() {
        set_element(&mut frames[i].before, k, value);
    }
}
