//! Whether functions leave the frames within their own as they have to be.

ghost use Rattle.std.specs.Prelude.{◌≡◌, ◌&&◌, ◌||◌, List, Some, bytes_eq, map, not};
ghost use Rattle.std.specs.List.{list_all, list_any};
ghost use Rattle.bl_tree.specs.Reduce.{joined};
ghost use Rattle.bl_tree.specs.declared.c.CPlace.{out-CPlace};
ghost use Rattle.bl_tree.specs.declared.text.Text.{Text};
ghost use Rattle.bl_ctext_places.specs.Names.{HasNames};
ghost use Rattle.bl_ctext_semantics.specs.inner.Maps.{text_at};
ghost use Rattle.bl_simplify_laws.specs.Spots.{firsts_differ, is_own as own_name, lent_by, lent_in, spot_of_place, spots_apart};
ghost use Rattle.bl_simplify_laws.specs.Tables.{has_name};
ghost use Rattle.bl_simplify_laws_frames.specs.Reached.{Frame, all_apart, call_keeps as keeps_by_call, covers, first_exact, frame_spot, framed_names, is_called_with as called_with, is_plain_expr as plain_expr};
ghost use Rattle.bl_simplify_laws_frames.specs.Reached.{is_spot as is_told_spot, keeps_frames, plain_call, plain_place, whole_frame};
ghost use Rattle.bl_simplify_calls.specs.Firsts.{first_member};
ghost use Rattle.bl_simplify_frames.specs.Plain.{is_first_told, is_none_told, plain_arg, plain_step};
ghost use Rattle.bl_simplify_frames.specs.Told.{as_frame, part_of};

use crate::frames::{OwnFrame, Part};
use crate::plain::{is_plain_call, is_plain_expr, is_plain_place};
use bl_ctext_semantics::maps::has;
use bl_simplify_calls::Framed;
use bl_tree::c::{CArg, CCall, CExpr, CPlace, CStep, CStmt, CStmtKind};

/// Whether a pointer of this name is its function's own.
pub fn is_own(name: &str) -> bool
    ensures { result ≡ own_name name.now }
{
    name == "f" || name == "s"
}

/// Whether the first of some steps is surely another member.
fn is_other_first(steps: &[CStep], member: &str) -> bool
    ensures { result ≡ firsts_differ (first_member steps.now) (Some member.now) }
{
    match steps {
        [first, ..] => first.member.as_str() != member,
        [] => false,
    }
}

/// Whether a place surely has nothing in common with a member of the frame.
fn is_apart(frame: &OwnFrame, place: &CPlace, part: &Part) -> bool
    ensures { result ≡ spots_apart (spot_of_place place.now) (frame_spot (as_frame frame.now) part.now.member) }
{
    if place.name.as_str() == frame.pointer.as_str() {
        place.through && is_other_first(&place.steps, &part.member)
    } else {
        !place.through || (is_own(&place.name) || is_own(&frame.pointer))
    }
}

/// Whether a place is what the frame's pointer leads to, or a part of that.
fn is_within(frame: &OwnFrame, place: &CPlace) -> bool
    ensures { result ≡ ((out-CPlace place.now).through && bytes_eq (out-CPlace place.now).name frame.now.pointer) }
{
    place.through && place.name.as_str() == frame.pointer.as_str()
}

/// Whether steps are one, without an index, to this member.
fn is_step_to(steps: &[CStep], member: &str) -> bool
    ensures { (names : List Text) → result ≡ is_first_told (map (λ s. s.member) (map (plain_step names) steps.now)) member.now }
{
    match steps {
        [step] if step.index.is_none() => step.member.as_str() == member,
        _ => false,
    }
}

/// Whether there are no steps.
fn are_none(steps: &[CStep]) -> bool
    ensures { (names : List Text) → result ≡ is_none_told (map (λ s. s.member) (map (plain_step names) steps.now)) }
{
    match steps {
        [] => true,
        [_, ..] => false,
    }
}

/// Whether a place is this member of the frame.
fn is_member(frame: &OwnFrame, place: &CPlace, part: &Part) -> bool
    ensures { (names : List Text) → result ≡ is_told_spot (plain_place names place.now).exact (frame_spot (as_frame frame.now) part.now.member) }
{
    is_within(frame, place) & is_step_to(&place.steps, &part.member)
}

/// Whether a place is the whole frame.
fn is_whole(frame: &OwnFrame, place: &CPlace) -> bool
    ensures { (names : List Text) → result ≡ is_told_spot (plain_place names place.now).exact (whole_frame (as_frame frame.now)) }
{
    is_within(frame, place) & are_none(&place.steps)
}

/// Whether a place has nothing in common with any part of the frame.
fn is_apart_from_all(frame: &OwnFrame, place: &CPlace) -> bool
    ensures { result ≡ list_all (λ part. spots_apart (spot_of_place place.now) (frame_spot (as_frame frame.now) part.0)) (as_frame frame.now).parts }
{
    let mut apart = true;
    for part in frame.parts.as_slice() {
        apart &= is_apart(frame, place, part);
    }
    apart
}

/// Whether what is cleared is apart from a part of the frame, or covers it.
fn is_cleared(frame: &OwnFrame, place: &CPlace, part: &Part) -> bool
    ensures { (names : List Text) → result ≡
        (spots_apart (spot_of_place place.now) (frame_spot (as_frame frame.now) part.now.member)
        || covers (as_frame frame.now) (plain_place names place.now).exact (frame_spot (as_frame frame.now) part.now.member)) }
{
    is_apart(frame, place, part) | (is_member(frame, place, part) | is_whole(frame, place))
}

/// Whether what is cleared is apart from each part of the frame, or covers it.
fn are_cleared(frame: &OwnFrame, place: &CPlace) -> bool
    ensures { (names : List Text) → result ≡
        list_all (λ part. spots_apart (spot_of_place place.now) (frame_spot (as_frame frame.now) part.0)
        || covers (as_frame frame.now) (plain_place names place.now).exact (frame_spot (as_frame frame.now) part.0)) (as_frame frame.now).parts }
{
    let mut kept = true;
    for part in frame.parts.as_slice() {
        kept &= is_cleared(frame, place, part);
    }
    kept
}

/// Whether an argument is the address of this part of the frame.
fn is_address_of(frame: &OwnFrame, arg: &CArg, part: &Part) -> bool
    ensures { (names : List Text) → result ≡ is_told_spot (plain_arg names arg.now).exact (frame_spot (as_frame frame.now) part.now.member) }
{
    match arg {
        CArg::Address(place) => is_member(frame, place, part),
        CArg::Value(_) => false,
    }
}

/// Whether the first argument is the address of this part of the frame.
fn is_lent_first(frame: &OwnFrame, args: &[CArg], part: &Part) -> bool
    ensures { (names : List Text) → result ≡ is_told_spot (first_exact (map (λ a. a.exact) (map (plain_arg names) args.now))) (frame_spot (as_frame frame.now) part.now.member) }
{
    match args {
        [first, ..] => is_address_of(frame, first, part),
        [] => false,
    }
}

/// Whether a part is the one whose address a call passes first, and the call is of its function.
fn is_called_with(frame: &OwnFrame, call: &CCall, part: &Part) -> bool
    ensures { (names : List Text) → result ≡ called_with (as_frame frame.now) (plain_call names call.now) (part_of part.now) }
{
    (part.function.as_str() == call.name.as_str()) & is_lent_first(frame, &call.args, part)
}

/// Whether a call is made with one of the parts.
fn is_with_some(frame: &OwnFrame, call: &CCall) -> bool
    ensures { (names : List Text) → result ≡ list_any (called_with (as_frame frame.now) (plain_call names call.now)) (as_frame frame.now).parts }
{
    let mut some = false;
    for part in frame.parts.as_slice() {
        some |= is_called_with(frame, call, part);
    }
    some
}

fn leads_apart(frame: &OwnFrame, arg: &CArg, part: &Part) -> bool
    ensures { result ≡ all_apart (lent_by arg.now) (frame_spot (as_frame frame.now) part.now.member) }
{
    match arg {
        CArg::Value(_) => true,
        CArg::Address(place) => is_apart(frame, place, part),
    }
}

/// Whether no argument leads to something in common with a member of the frame.
fn lead_apart(frame: &OwnFrame, args: &[CArg], part: &Part) -> bool
    ensures { result ≡ all_apart (joined (map lent_by args.now)) (frame_spot (as_frame frame.now) part.now.member) }
{
    let mut apart = true;
    for arg in args {
        apart &= leads_apart(frame, arg, part);
    }
    apart
}

/// Whether a call passes on no address that leads to a part, unless it is made with this.
fn leaves_part(frame: &OwnFrame, call: &CCall, part: &Part) -> bool
    ensures { (names : List Text) → result ≡
        (called_with (as_frame frame.now) (plain_call names call.now) (part_of part.now)
        || all_apart (lent_in call.now) (frame_spot (as_frame frame.now) part.now.member)) }
{
    is_called_with(frame, call, part) | lead_apart(frame, &call.args, part)
}

/// Whether a call passes on no address that leads to a part, but that of the part with which it is made.
fn leaves_parts(frame: &OwnFrame, call: &CCall) -> bool
    ensures { (names : List Text) → result ≡
        list_all (λ part. called_with (as_frame frame.now) (plain_call names call.now) part
        || all_apart (lent_in call.now) (frame_spot (as_frame frame.now) part.0)) (as_frame frame.now).parts }
{
    let mut kept = true;
    for part in frame.parts.as_slice() {
        kept &= leaves_part(frame, call, part);
    }
    kept
}

/// Whether a call is of no function that takes a frame, or is made with one of the parts.
fn gets_own(framed: &Framed<'_>, frame: &OwnFrame, call: &CCall) -> bool
    ensures { (names : List Text) → HasNames (text_at framed.now) names →
        result ≡ (not (has_name names call.now.name) || list_any (called_with (as_frame frame.now) (plain_call names call.now)) (as_frame frame.now).parts) }
{
    !has(framed, &call.name) | is_with_some(frame, call)
}

/// Whether a call leaves the parts as they have to be.
fn call_keeps(framed: &Framed<'_>, frame: &OwnFrame, call: &CCall) -> bool
    ensures { (frames : List Frame) → HasNames (text_at framed.now) (framed_names frames) → result ≡ keeps_by_call frames (as_frame frame.now) call.now }
{
    is_plain_call(framed, call) & (gets_own(framed, frame, call) & leaves_parts(frame, call))
}

/// Whether an assignment leaves the parts as they have to be.
fn set_keeps(framed: &Framed<'_>, frame: &OwnFrame, place: &CPlace, value: &CExpr) -> bool
    ensures { (names : List Text) → HasNames (text_at framed.now) names → result ≡
        ((plain_place names place.now).plain && (plain_expr names value.now
        && list_all (λ part. spots_apart (spot_of_place place.now) (frame_spot (as_frame frame.now) part.0)) (as_frame frame.now).parts)) }
{
    is_plain_place(framed, place) & (is_plain_expr(framed, value) & is_apart_from_all(frame, place))
}

/// Whether a statement leaves the frames within a function's own as they have to be.
#[cycle(keeping)]
fn stmt_keeps(framed: &Framed<'_>, frame: &OwnFrame, stmt: &CStmt) -> bool
    ensures { (frames : List Frame) → HasNames (text_at framed.now) (framed_names frames) → result ≡ keeps_frames frames (as_frame frame.now) stmt.now }
{
    match &stmt.what {
        CStmtKind::Set(place, value) => set_keeps(framed, frame, place, value),
        CStmtKind::Clear(place, _) => is_plain_place(framed, place) & are_cleared(frame, place),
        CStmtKind::Call(call) => call_keeps(framed, frame, call),
        CStmtKind::If(condition, block, None) => {
            is_plain_expr(framed, condition) & block_keeps(framed, frame, block)
        }
        CStmtKind::If(condition, block, Some(other)) => {
            is_plain_expr(framed, condition)
                & (block_keeps(framed, frame, block) & block_keeps(framed, frame, other))
        }
        CStmtKind::Loop(_, condition, body) => {
            is_plain_expr(framed, condition) & block_keeps(framed, frame, body)
        }
        CStmtKind::Break | CStmtKind::Return(None) => true,
        CStmtKind::Return(Some(value)) => is_plain_expr(framed, value),
    }
}

/// Whether each statement of a block leaves the frames within a function's own as they have to be.
#[cycle(keeping)]
pub fn block_keeps(framed: &Framed<'_>, frame: &OwnFrame, block: &[CStmt]) -> bool
    ensures { (frames : List Frame) → HasNames (text_at framed.now) (framed_names frames) →
        result ≡ list_all (keeps_frames frames (as_frame frame.now)) block.now }
{
    let mut kept = true;
    for stmt in block {
        kept &= stmt_keeps(framed, frame, stmt);
    }
    kept
}
