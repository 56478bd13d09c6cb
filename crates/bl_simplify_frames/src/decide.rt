//! Whether the frames of a file are as the laws ask.

ghost use Rattle.std.specs.Prelude.{◌≡◌, ◌||◌, All, IfOk, List, codes, map, not, true};
ghost use Rattle.bl_tree.specs.declared.text.Text.{Text};
ghost use Rattle.bl_ctext_places.specs.Names.{HasNames};
ghost use Rattle.bl_ctext_semantics.specs.inner.Maps.{text_at};
ghost use Rattle.bl_simplify_laws.specs.Tables.{has_name};
ghost use Rattle.bl_simplify_laws_frames.specs.Reached.{KeepsFrames, LeavesReached, frame_for as laws_frame, framed_names, takes_frame as has_frame};
ghost use Rattle.bl_simplify_frames.specs.Decided.{AreFrames, AreOfState, KeepsWhereNamed};
ghost use Rattle.bl_simplify_frames.specs.Told.{as_frame, as_frames, part_of};

use crate::ends::goes_through;
use crate::fits::all_fit;
use crate::frames::{OwnFrame, Part, frame_for, no_frame};
use crate::keeps::block_keeps;
use crate::reached::{are_left, is_untold};
use bl_ctext_semantics::maps::{add, has};
use bl_simplify_calls::{Framed, stands};
use bl_tree::NoMemory;
use bl_tree::c::{CFunc, CParam, CStruct};
use std::alloc::Global;
use std::collections::HashMap;

/// The names of functions that take a frame first.
fn names_of<'a>(alloc: Global, frames: &'a [OwnFrame]) -> Result<Framed<'a>, NoMemory>
    ensures { IfOk result (λ framed. HasNames (text_at framed) (framed_names (as_frames frames.now))) }
{
    let mut framed = HashMap::new(alloc);
    for k in (0..frames.len()).rev() {
        add(&mut framed, frames[k].name.as_str(), ())?;
    }
    Ok(framed)
}

/// Whether the first parameter is a function's pointer to its frame.
fn takes_frame(frame: &OwnFrame, params: &[CParam]) -> bool
    ensures { result ≡ has_frame (as_frame frame.now) params.now }
{
    match params {
        [first, ..] => first.name.as_str() == frame.pointer.as_str(),
        [] => false,
    }
}

/// Whether a function leaves one of its frame's facts in force.
fn leaves_reached(alloc: Global, function: &CFunc, frame: &OwnFrame) -> Result<bool, NoMemory>
    ensures { IfOk result (λ leaves. leaves ≡ true → LeavesReached (as_frame frame.now) function.now) }
{
    if is_untold(&frame.reached) {
        return Ok(true);
    }
    if !goes_through(&function.body) {
        return Ok(false);
    }
    are_left(alloc, function, &frame.reached)
}

/// Whether a function takes its frame first, if it is one of those that take one.
fn takes_own(framed: &Framed<'_>, frame: &OwnFrame, function: &CFunc) -> bool
    ensures { (names : List Text) → HasNames (text_at framed.now) names →
        result ≡ (not (has_name names function.now.name) || has_frame (as_frame frame.now) function.now.params) }
{
    !has(framed, &function.name) | takes_frame(frame, &function.params)
}

/// Whether a function keeps frames as they have to be, where this is its own.
fn keeps_with(
    alloc: Global,
    framed: &Framed<'_>,
    frames: &[OwnFrame],
    frame: &OwnFrame,
    function: &CFunc,
) -> Result<bool, NoMemory>
    requires { laws_frame (as_frames frames.now) function.now.name ≡ as_frame frame.now }
    ensures { IfOk result (λ kept. kept ≡ true → KeepsWhereNamed (text_at framed.now) (as_frames frames.now) function.now) }
{
    let _frames = frames;
    if !stands(framed, function) || !block_keeps(framed, frame, &function.body) {
        return Ok(false);
    }
    if !takes_own(framed, frame, function) {
        return Ok(false);
    }
    leaves_reached(alloc, function, frame)
}

/// Whether a function keeps frames as they have to be.
fn keeps(
    alloc: Global,
    framed: &Framed<'_>,
    frames: &[OwnFrame],
    function: &CFunc,
) -> Result<bool, NoMemory>
    ensures { IfOk result (λ kept. kept ≡ true → KeepsWhereNamed (text_at framed.now) (as_frames frames.now) function.now) }
{
    match frame_for(frames, &function.name) {
        Some(frame) => keeps_with(alloc, framed, frames, frame, function),
        None => {
            let frame = no_frame(alloc, &function.name)?;
            keeps_with(alloc, framed, frames, &frame, function)
        }
    }
}

/// Whether each function keeps frames as they have to be.
fn all_keep(alloc: Global, functions: &[CFunc], frames: &[OwnFrame]) -> Result<bool, NoMemory>
    ensures { IfOk result (λ kept. kept ≡ true → All (KeepsFrames (as_frames frames.now)) functions.now) }
{
    let framed = names_of(alloc, frames)?;
    let mut all = true;
    for function in functions {
        let here = keeps(alloc, &framed, frames, function)?;
        all &= here;
    }
    Ok(all)
}

fn is_same_part(a: &Part, b: &Part) -> bool
    ensures { result ≡ true → part_of a.now ≡ part_of b.now }
{
    a.member.as_str() == b.member.as_str() && a.function.as_str() == b.function.as_str()
}

fn are_same_parts(a: &[Part], b: &[Part]) -> bool
    ensures { result ≡ true → map part_of a.now ≡ map part_of b.now }
{
    if a.len() != b.len() {
        return false;
    }
    for k in 0..a.len() {
        if !is_same_part(&a[k], &b[k]) {
            return false;
        }
    }
    true
}

/// Whether frames are those of the start and of the tick.
fn are_of_state(init: &OwnFrame, tick: &OwnFrame) -> bool
    ensures { result ≡ true → AreOfState (as_frame init.now) (as_frame tick.now) }
{
    tick.of.as_str() == "bl_state"
        && are_same_parts(&init.parts, &tick.parts)
        && is_untold(&init.reached)
        && is_untold(&tick.reached)
}

/// Whether the start and the tick take the state first, of which nothing is told but its parts.
fn have_state(frames: &[OwnFrame]) -> bool
    ensures { result ≡ true → AreOfState (laws_frame (as_frames frames.now) (codes "bl_init")) (laws_frame (as_frames frames.now) (codes "bl_tick")) }
{
    match (frame_for(frames, "bl_init"), frame_for(frames, "bl_tick")) {
        (Some(init), Some(tick)) => are_of_state(init, tick),
        _ => false,
    }
}

/// Whether frames are as the laws ask in a file, and its functions keep them so.
pub fn are_frames(
    alloc: Global,
    structs: &[CStruct],
    functions: &[CFunc],
    frames: &[OwnFrame],
) -> Result<bool, NoMemory>
    ensures { IfOk result (λ are. are ≡ true → AreFrames structs.now (as_frames frames.now) functions.now) }
{
    if !all_fit(structs, frames) || !have_state(frames) {
        return Ok(false);
    }
    all_keep(alloc, functions, frames)
}
