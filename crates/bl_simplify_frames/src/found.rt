//! The frames of a file. What is found here is a choice, at which `are_frames` looks.

use crate::frames::{OwnFrame, Part, untold};
use crate::keeps::is_own;
use crate::reached::reached_in;
use bl_ctext_semantics::maps::has;
use bl_simplify_calls::{Framed, framed_names};
use bl_simplify_facts::entries::Case;
use bl_simplify_walk::reach::Share;
use bl_tree::c::{CArg, CCall, CFunc, CParam, CPlace, CStmt, CStmtKind, CType};
use bl_tree::{List, NoMemory, Text};
use std::alloc::Global;

/// The frame of each function whose first parameter has the name of an own pointer.
pub fn frames_in(
    alloc: Global,
    functions: &[CFunc],
    share: Share,
) -> Result<List<OwnFrame>, NoMemory> {
    let framed = framed_names(alloc, functions)?;
    let mut frames = List::new(alloc);
    for function in functions {
        if let [first, ..] = function.params.as_slice() {
            if is_own(&first.name) {
                frames.push(own_frame(alloc, &framed, functions, function, first, share)?)?;
            }
        }
    }
    Ok(frames)
}

fn own_frame(
    alloc: Global,
    framed: &Framed<'_>,
    functions: &[CFunc],
    function: &CFunc,
    first: &CParam,
    share: Share,
) -> Result<OwnFrame, NoMemory> {
    let mut parts = List::new(alloc);
    if first.name.as_str() == "s" {
        add_state_parts(alloc, framed, functions, &mut parts)?;
    } else {
        add_parts(alloc, framed, &first.name, &function.body, &mut parts)?;
    }
    Ok(OwnFrame {
        name: Text::copy_of(alloc, &function.name)?,
        pointer: Text::copy_of(alloc, &first.name)?,
        of: struct_of(alloc, first)?,
        parts,
        reached: reached_of(alloc, function, first, share)?,
    })
}

fn struct_of(alloc: Global, first: &CParam) -> Result<Text, NoMemory> {
    match &first.ty {
        CType::Struct(name) => Ok(Text::copy_of(alloc, name)?),
        CType::Scalar(_) => Ok(Text::copy_of(alloc, "")?),
    }
}

/// Nothing is told of the state.
fn reached_of(
    alloc: Global,
    function: &CFunc,
    first: &CParam,
    share: Share,
) -> Result<List<Case>, NoMemory> {
    if first.name.as_str() == "s" {
        return untold(alloc);
    }
    reached_in(alloc, function, share)
}

/// Adds the parts of the state: the start and the tick have the same ones.
fn add_state_parts(
    alloc: Global,
    framed: &Framed<'_>,
    functions: &[CFunc],
    parts: &mut List<Part>,
) -> Result<(), NoMemory> {
    for function in functions {
        add_parts(alloc, framed, "s", &function.body, parts)?;
    }
    Ok(())
}

/// Adds the parts of a pointer's frame with which a block calls functions, each once.
#[cycle(parting)]
fn add_parts(
    alloc: Global,
    framed: &Framed<'_>,
    pointer: &str,
    block: &[CStmt],
    parts: &mut List<Part>,
) -> Result<(), NoMemory> {
    for stmt in block {
        add_parts_of(alloc, framed, pointer, stmt, parts)?;
    }
    Ok(())
}

#[cycle(parting)]
fn add_parts_of(
    alloc: Global,
    framed: &Framed<'_>,
    pointer: &str,
    stmt: &CStmt,
    parts: &mut List<Part>,
) -> Result<(), NoMemory> {
    match &stmt.what {
        CStmtKind::Call(call) => add_part(alloc, framed, pointer, call, parts),
        CStmtKind::If(_, block, None) | CStmtKind::Loop(_, _, block) => {
            add_parts(alloc, framed, pointer, block, parts)
        }
        CStmtKind::If(_, block, Some(other)) => {
            add_parts(alloc, framed, pointer, block, parts)?;
            add_parts(alloc, framed, pointer, other, parts)
        }
        _ => Ok(()),
    }
}

fn add_part(
    alloc: Global,
    framed: &Framed<'_>,
    pointer: &str,
    call: &CCall,
    parts: &mut List<Part>,
) -> Result<(), NoMemory> {
    if !has(framed, &call.name) {
        return Ok(());
    }
    if let [CArg::Address(place), ..] = call.args.as_slice() {
        if let Some(member) = member_of(pointer, place) {
            if !has_part(parts, member, &call.name) {
                parts.push(Part {
                    member: Text::copy_of(alloc, member)?,
                    function: Text::copy_of(alloc, &call.name)?,
                })?;
            }
        }
    }
    Ok(())
}

/// The member of a pointer's frame that a place is.
fn member_of<'a>(pointer: &str, place: &'a CPlace) -> Option<&'a Text> {
    match place.steps.as_slice() {
        [step] if place.through && step.index.is_none() && place.name.as_str() == pointer => {
            Some(&step.member)
        }
        _ => None,
    }
}

fn has_part(parts: &[Part], member: &str, function: &str) -> bool {
    for part in parts {
        if part.member.as_str() == member && part.function.as_str() == function {
            return true;
        }
    }
    false
}
