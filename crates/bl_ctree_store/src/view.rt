//! What the statements of an instance see.

ghost use Rattle.std.specs.Prelude.{◌≡◌, IfOk, IsTrue, length, option_map};
ghost use Rattle.bl_ctree.specs.Store.{variable_among};
ghost use Rattle.bl_ctree_store.specs.Agree.{filled};
ghost use Rattle.bl_ctree_store.specs.Glimpse.{Glimpses, IsRoom};
ghost use Rattle.bl_ctree_store.specs.Seen.{count_of, seen_by, setting_in, side, store_of};

use crate::frame::{Frame, Moment, find};
use crate::home::home_of;
use crate::setting::Setting;
use crate::views::Views;
use crate::writing::set_element;
use bl_eval::{Values, copy};
use bl_tree::slices::element;
use bl_tree::{List, NoMemory, Value};
use std::alloc::Global;

/// The values of the variables of an instance as far as they are asked for, those of outputs from their homes.
#[derive(Drop)]
pub struct InstanceView {
    pub now: Values,
    pub before: Values,
}

/// The value of a variable, wherever its home is. Fails only for want of memory, as what follows.
fn variable(
    alloc: Global,
    w: &Setting,
    frames: &[Frame],
    moment: Moment,
    i: u32,
    k: usize,
) -> Result<Value, NoMemory>
    ensures { IfOk result (λ value. value ≡ variable_among (side moment) (setting_in w.now) (store_of frames.now) i k) }
{
    let at = home_of(alloc, w, i, k, List::new(alloc))?;
    match find(frames, moment, &at) {
        Some(value) => copy(alloc, value),
        None => Ok(Value::Parts(List::new(alloc))),
    }
}

/// Nothing yet of so many variables.
fn blanks(alloc: Global, count: usize) -> Result<List<Value>, NoMemory>
    ensures { IfOk result (λ made. length made ≡ count) }
{
    let mut made = List::new(alloc);
    for _ in 0..count {
        made.push(Value::Number(0))?;
    }
    Ok(made)
}

fn fits(view: &InstanceView, count: usize) -> bool
    ensures { IsTrue result → IsRoom count view.entry.now }
{
    view.now.list.len() == count && view.before.list.len() == count
}

fn blank(alloc: Global, unit: u32, count: usize) -> Result<InstanceView, NoMemory>
    ensures { IfOk result (IsRoom count) }
{
    let now = blanks(alloc, count)?;
    let before = blanks(alloc, count)?;
    Ok(InstanceView {
        now: Values { unit, list: now },
        before: Values { unit, list: before },
    })
}

/// A view of so many variables of the unit, whatever it shows of them: one that is at hand, or else a blank one.
fn room(alloc: Global, views: &mut Views, unit: u32, count: usize) -> Result<InstanceView, NoMemory>
    ensures { IfOk result (IsRoom count) }
{
    match views.take(unit) {
        None => blank(alloc, unit, count),
        Some(view) => {
            if fits(&view, count) {
                Ok(view)
            } else {
                blank(alloc, unit, count)
            }
        }
    }
}

/// The values, those of the variables that are asked for being what they are. The others are left, since to copy a value takes as
/// long as it is large, and to copy them all as long as they are many.
fn filled(
    alloc: Global,
    w: &Setting,
    frames: &[Frame],
    moment: Moment,
    i: u32,
    asked: &[u32],
    values: List<Value>,
) -> Result<List<Value>, NoMemory>
    ensures { IfOk result (λ made. made ≡ filled (variable_among (side moment) (setting_in w.now) (store_of frames.now) i) asked.now values) }
{
    let mut made = values.into_vec();
    for k in asked {
        let value = variable(alloc, w, frames, moment, i, *k as usize)?;
        set_element(&mut made, *k as usize, value);
    }
    Ok(List::from_vec(made))
}

fn count(w: &Setting, unit: u32) -> usize
    ensures { result ≡ count_of (setting_in w.now) unit }
{
    match element(&w.program.units, unit as usize) {
        None => 0,
        Some(unit) => unit.vars.len(),
    }
}

/// What the statements of an instance see of the variables that are asked for, and something of the others; none where there is no
/// such instance. A view that is at hand is filled again.
pub fn look(
    alloc: Global,
    w: &Setting,
    frames: &[Frame],
    views: &mut Views,
    i: u32,
    asked: &[u32],
) -> Result<Option<InstanceView>, NoMemory>
    ensures { IfOk result (λ made. Glimpses asked.now (setting_in w.now) (store_of frames.now) i (option_map seen_by made)) }
{
    match element(&w.instances, i as usize) {
        None => Ok(None),
        Some(instance) => {
            let unit = instance.unit;
            let InstanceView { now, before } = room(alloc, views, unit, count(w, unit))?;
            let now = filled(alloc, w, frames, Moment::Now, i, asked, now.list)?;
            let before = filled(alloc, w, frames, Moment::Before, i, asked, before.list)?;
            Ok(Some(InstanceView {
                now: Values { unit, list: now },
                before: Values { unit, list: before },
            }))
        }
    }
}
