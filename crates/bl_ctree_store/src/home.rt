//! Where the static paths of instances lead: an output of a called instance stands for its caller's path.

ghost use Rattle.std.specs.Prelude.{◌≡◌, ◌++◌, ◌≤◌, IfOk, OnOk, IsTrue, option_map, map};
ghost use Rattle.bl_ctree.specs.Store.{depth_at, home, homes, is_output_of, led, led_by, overlap, under};
ghost use Rattle.bl_tree.specs.Static.{is_front, overlaps};
ghost use Rattle.bl_ctree_store.specs.Seen.{location_of, setting_in};

use crate::setting::Setting;
use bl_ctree::instance::Origin;
use bl_tree::slices::element;
use bl_tree::tree::Unit;
use bl_tree::{List, NoMemory, Static};
use std::alloc::Global;

/// A static path of an instance.
#[derive(Drop)]
pub struct Home {
    pub instance: u32,
    /// The variable.
    pub root: usize,
    /// Positions of fields, from the outermost inwards.
    pub fields: List<usize>,
}

/// The positions of the fields of a static path. Fails only for want of memory, as what follows.
pub fn positions_of(alloc: Global, fields: &[u32]) -> Result<List<usize>, NoMemory>
    ensures { IfOk result (λ made. made ≡ fields.now) }
{
    let mut made = List::new(alloc);
    for field in fields {
        made.push(*field as usize)?;
    }
    Ok(made)
}

fn append(fields: &[usize], into: &mut List<usize>) -> Result<(), NoMemory>
    ensures { OnOk result (into.new ≡ into.old ++ fields.now) }
{
    for field in fields {
        into.push(*field)?;
    }
    Ok(())
}

/// Where the fields lead on from the caller's path.
fn under(alloc: Global, caller: u32, fields: &[usize], path: &Static) -> Result<Home, NoMemory>
    ensures { IfOk result (λ made. location_of made ≡ under caller fields.now path.now) }
{
    let mut all = positions_of(alloc, &path.fields)?;
    append(fields, &mut all)?;
    Ok(Home {
        instance: caller,
        root: path.root as usize,
        fields: all,
    })
}

fn is_output_of(unit: &Unit, k: usize) -> bool
    ensures test { result ≡ is_output_of unit.now k }
    ensures first { IsTrue result → unit.now.inputs ≤ k }
{
    unit.inputs as usize <= k && k < unit.inputs as usize + unit.outputs as usize
}

fn led_by(alloc: Global, at: &Home, origin: &Origin, unit: &Unit) -> Result<Option<Home>, NoMemory>
    ensures { IfOk result (λ next. option_map location_of next ≡ led_by (location_of at.now).path origin.now unit.now) }
{
    if !is_output_of(unit, at.root) {
        return Ok(None);
    }
    match element(&origin.outputs, at.root - unit.inputs as usize) {
        None => Ok(None),
        Some(outer) => Ok(Some(under(alloc, origin.caller, &at.fields, outer)?)),
    }
}

/// The caller's path for which a path of an instance stands.
fn led(alloc: Global, w: &Setting, at: &Home) -> Result<Option<Home>, NoMemory>
    ensures { IfOk result (λ next. option_map location_of next ≡ led (setting_in w.now) (location_of at.now)) }
{
    let Some(instance) = element(&w.instances, at.instance as usize) else {
        return Ok(None);
    };
    match &instance.origin {
        None => Ok(None),
        Some(origin) => match element(&w.program.units, instance.unit as usize) {
            None => Ok(None),
            Some(unit) => led_by(alloc, at, origin, unit),
        },
    }
}

fn depth_at(w: &Setting, i: u32) -> u32
    ensures { result ≡ depth_at (setting_in w.now) i }
{
    match element(&w.instances, i as usize) {
        None => 0,
        Some(instance) => instance.depth,
    }
}

/// Where a part of a variable of an instance leads, on to the outermost caller.
pub fn home_of(
    alloc: Global,
    w: &Setting,
    i: u32,
    root: usize,
    fields: List<usize>,
) -> Result<Home, NoMemory>
    ensures { IfOk result (λ made. location_of made ≡ home (setting_in w.now) (record { instance = i; path = record { root = root; fields = fields } })) }
{
    let mut at = Home {
        instance: i,
        root,
        fields,
    };
    let depth = depth_at(w, i);
    for _ in 0..depth {
        match led(alloc, w, &at)? {
            Some(next) => at = next,
            None => return Ok(at),
        }
    }
    Ok(at)
}

/// Appends the homes of static paths of an instance.
pub fn append_homes(
    alloc: Global,
    w: &Setting,
    i: u32,
    paths: &[Static],
    into: &mut List<Home>,
) -> Result<(), NoMemory>
    ensures { OnOk result (map location_of into.new ≡ map location_of into.old ++ homes (setting_in w.now) i paths.now) }
{
    for path in paths {
        let fields = positions_of(alloc, &path.fields)?;
        into.push(home_of(alloc, w, i, path.root as usize, fields)?)?;
    }
    Ok(())
}

fn is_front(a: &[usize], b: &[usize]) -> bool
    ensures { result ≡ is_front a.now b.now }
{
    for k in 0..a.len() {
        if k >= b.len() {
            return false;
        }
        if a[k] != b[k] {
            return false;
        }
    }
    true
}

/// Whether two homes have something in common.
pub fn overlap(one: &Home, other: &Home) -> bool
    ensures { result ≡ overlap (location_of one.now) (location_of other.now) }
{
    one.instance == other.instance
        && one.root == other.root
        && (is_front(&one.fields, &other.fields) || is_front(&other.fields, &one.fields))
}
