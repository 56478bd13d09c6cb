//! Files with simplified functions.

ghost use Rattle.std.specs.Prelude.{◌≡◌, ◌≤◌, IfOk, MatchOption, true};
ghost use Rattle.bl_bound.specs.Told.{told_costs};
ghost use Rattle.bl_ctext_semantics.specs.Faults.{WellFormed};
ghost use Rattle.bl_ctext_semantics.specs.Parts.{parts_from, parts_of};
ghost use Rattle.bl_ctext_semantics.specs.Sizes.{cells_needed};
ghost use Rattle.bl_simplify_frames.specs.Told.{as_frames};
ghost use Rattle.bl_simplify.specs.Files.{AreNewOf, IsNewOf};
ghost use Rattle.bl_simplify.specs.Frames.{begins_with_frame};
ghost use Rattle.bl_simplify.specs.Simplified.{IsKept, IsSimplified, NoneDearer};

use crate::copies::{copied_function, copied_structs};
use crate::costs::are_no_dearer;
use crate::counters::are_kept;
use crate::functions::{simplified_function, takes_frame};
use bl_bound::costs;
use bl_ctext::CFile;
use bl_ctext_semantics::check::{CheckFault, cells, check};
use bl_ctext_spelled::spell;
use bl_simplify_frames::frames::{OwnFrame, frame_for};
use bl_simplify_frames::{are_frames, frames_in};
use bl_simplify_laws::files::same_functions;
use bl_simplify_laws_frames::reached::{frame_rules, same_trace_in};
use bl_simplify_walk::reach::{Share, is_walked};
use bl_simplify_walk::weight::weight_of_block;
use bl_tree::c::CFunc;
use bl_tree::{List, NoMemory};
use std::alloc::Global;

/// Of so many parts of a file one at least is walked, or the file stays as it is.
const PARTS: usize = 8;

/// Whether the body of a function is walked: of that of an activity, if it isn't too long.
fn is_walked_in(function: &CFunc) -> bool
    ensures { result ≡ true → begins_with_frame function.now.params ≡ true }
{
    takes_frame(&function.params) && is_walked(weight_of_block(&function.body))
}

/// How much of a file is walked.
fn walked_weight(functions: &[CFunc]) -> usize {
    let mut walked: usize = 0;
    for function in functions {
        if is_walked_in(function) {
            walked = walked.saturating_add(weight_of_block(&function.body));
        }
    }
    walked
}

/// Whether so much of a file is walked that it is looked at as a whole. No clause speaks of it.
fn is_worth(functions: &[CFunc], walked: usize) -> bool {
    let mut all: usize = 0;
    for function in functions {
        all = all.saturating_add(weight_of_block(&function.body));
    }
    walked.saturating_mul(PARTS) >= all
}

/// What stands for a function: a simplified one for the function of an activity, if it names no other counters, and else the
/// function itself.
fn new_function(
    alloc: Global,
    frames: &[OwnFrame],
    function: &CFunc,
    share: Share,
) -> Result<CFunc, NoMemory>
    ensures { IfOk result (IsNewOf (as_frames frames.now) function.now) }
{
    same_functions();
    frame_rules();
    if !is_walked_in(function) {
        return copied_function(alloc, function);
    }
    let Some(frame) = frame_for(frames, &function.name) else {
        return copied_function(alloc, function);
    };
    let new = simplified_function(alloc, function, &frame.reached, share)?;
    if are_kept(alloc, function, &new)? {
        Ok(new)
    } else {
        copied_function(alloc, function)
    }
}

/// What stands for each of some functions.
fn new_functions(
    alloc: Global,
    frames: &[OwnFrame],
    functions: &[CFunc],
    share: Share,
) -> Result<List<CFunc>, NoMemory>
    ensures { IfOk result (AreNewOf (as_frames frames.now) functions.now) }
{
    let mut new = List::new(alloc);
    for function in functions {
        new.push(new_function(alloc, frames, function, share)?)?;
    }
    Ok(new)
}

/// Whether none of the functions of a new file can execute more than that of the given file which stands there.
fn is_no_dearer(alloc: Global, old: &CFile, new: &CFile) -> Result<bool, NoMemory>
    ensures { IfOk result (λ kept. kept ≡ true → NoneDearer (told_costs new.now.funcs) (told_costs old.now.funcs)) }
{
    let before = costs(alloc, old)?;
    let after = costs(alloc, new)?;
    Ok(are_no_dearer(&after, &before))
}

/// Whether a new file surely needs no more cells than the given one.
fn is_no_larger(alloc: Global, old: &CFile, new: &CFile) -> Result<bool, NoMemory>
    ensures { IfOk result (λ kept. kept ≡ true → cells_needed (parts_of new.now) ≤ cells_needed (parts_of old.now)) }
{
    let before = cells(alloc, old)?;
    let after = cells(alloc, new)?;
    Ok(after <= before && after < u64::MAX)
}

/// Whether a new file is well formed.
fn is_formed(alloc: Global, new: &CFile) -> Result<bool, NoMemory>
    ensures { IfOk result (λ formed. formed ≡ true → WellFormed (parts_of new.now)) }
{
    match check(alloc, new) {
        Ok(()) => Ok(true),
        Err(CheckFault::IllFormed { at: _ }) => Ok(false),
        Err(CheckFault::NoMemory) => Err(NoMemory),
    }
}

/// Whether a new file is well formed, and no larger or dearer than the given one.
fn is_kept(alloc: Global, old: &CFile, new: &CFile) -> Result<bool, NoMemory>
    ensures { IfOk result (λ kept. kept ≡ true → IsKept (parts_of old.now) (parts_of new.now)) }
{
    Ok(is_formed(alloc, new)? && is_no_dearer(alloc, old, new)? && is_no_larger(alloc, old, new)?)
}

/// The file with these functions, where they surely have a spelling.
fn with_functions(alloc: Global, old: &CFile, funcs: List<CFunc>) -> Result<Option<CFile>, NoMemory>
    ensures { IfOk result (λ new. MatchOption new (Unit {0}) (λ file. parts_of file ≡ parts_from old.now.structs funcs)) }
{
    if spell(&funcs) {
        Ok(Some(CFile {
            structs: copied_structs(alloc, &old.structs)?,
            funcs,
        }))
    } else {
        Ok(None)
    }
}

/// A file that does the same with fewer statements: that one itself, where its calls aren't such that the laws hold, or where
/// what was made of it isn't well formed, or larger or dearer. Fails only for want of memory.
pub fn simplified(alloc: Global, file: CFile) -> Result<CFile, NoMemory>
    requires { WellFormed (parts_of file) }
    ensures { IfOk result (λ new. IsSimplified (parts_of file) (parts_of new)) }
{
    same_trace_in();
    let walked = walked_weight(&file.funcs);
    if !is_worth(&file.funcs, walked) {
        return Ok(file);
    }
    let share = Share::of(walked);
    let frames = frames_in(alloc, &file.funcs, share)?;
    if !are_frames(alloc, &file.structs, &file.funcs, &frames)? {
        return Ok(file);
    }
    let funcs = new_functions(alloc, &frames, &file.funcs, share)?;
    match with_functions(alloc, &file, funcs)? {
        Some(new) if is_kept(alloc, &file, &new)? => Ok(new),
        _ => Ok(file),
    }
}
