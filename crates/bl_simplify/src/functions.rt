//! Functions with new bodies.

ghost use Rattle.std.specs.Prelude.{◌≡◌, IfOk, true};
ghost use Rattle.bl_simplify_facts.specs.Entries.{facts_of};
ghost use Rattle.bl_simplify.specs.Frames.{begins_with_frame as has_frame};
ghost use Rattle.bl_simplify.specs.Bodies.{DoesAs, HasBody};

use crate::copies::{copied_function, copied_local, copied_params};
use bl_ctext_places::in_block;
use bl_ctext_semantics::maps::has;
use bl_simplify_facts::entries::Case;
use bl_simplify_laws::files::same_functions;
use bl_simplify_laws::live::live_blocks;
use bl_simplify_laws_frames::reached::frame_rules;
use bl_simplify_live::{Names, names_of, without_dead};
use bl_simplify_walk::reach::{Manner, Share};
use bl_simplify_walk::walk::simplified_block;
use bl_simplify_walk::weight::weight_of_block;
use bl_tree::c::{CFunc, CLocal, CParam, CStmt};
use bl_tree::{List, NoMemory, Text};
use std::alloc::Global;

/// Whether the first parameter is named `f`.
pub fn takes_frame(params: &[CParam]) -> bool
    ensures { result ≡ has_frame params.now }
{
    match params {
        [first, ..] => first.name.as_str() == "f",
        [] => false,
    }
}

/// The locals that have one of the names.
fn locals_among(
    alloc: Global,
    locals: &[CLocal],
    names: &Names<'_>,
) -> Result<List<CLocal>, NoMemory> {
    let mut left = List::new(alloc);
    for local in locals {
        if has(names, &local.name) {
            left.push(copied_local(alloc, local)?)?;
        }
    }
    Ok(left)
}

/// The locals that a body names.
fn locals_named(
    alloc: Global,
    locals: &[CLocal],
    body: &[CStmt],
) -> Result<List<CLocal>, NoMemory> {
    let mut places = Vec::new(alloc);
    in_block(&mut places, body)?;
    let names = names_of(alloc, &places)?;
    locals_among(alloc, locals, &names)
}

/// The function with another body, and those of its locals that this names.
fn with_body(alloc: Global, function: &CFunc, body: List<CStmt>) -> Result<CFunc, NoMemory>
    ensures { IfOk result (λ new. HasBody function.now body new) }
{
    Ok(CFunc {
        place: function.place,
        fixed: function.fixed,
        result: function.result,
        name: Text::copy_of(alloc, &function.name)?,
        params: copied_params(alloc, &function.params)?,
        locals: locals_named(alloc, &function.locals, &body)?,
        body,
    })
}

/// A function that does the same, with what is known of spots put in, and without what is dead then.
fn walked_function(
    alloc: Global,
    function: &CFunc,
    reached: &[Case],
    share: Share,
    manner: Manner,
) -> Result<CFunc, NoMemory>
    ensures { IfOk result (DoesAs (facts_of reached.now) function.now) }
{
    frame_rules();
    live_blocks();
    let walked = simplified_block(alloc, function, reached, share, manner)?;
    let body = without_dead(alloc, &walked)?;
    with_body(alloc, function, body)
}

/// The same, but the function itself where that has more nodes.
fn shortened(
    alloc: Global,
    function: &CFunc,
    reached: &[Case],
    share: Share,
    manner: Manner,
) -> Result<CFunc, NoMemory>
    ensures { IfOk result (DoesAs (facts_of reached.now) function.now) }
{
    same_functions();
    frame_rules();
    let new = walked_function(alloc, function, reached, share, manner)?;
    if weight_of_block(&new.body) > weight_of_block(&function.body) {
        copied_function(alloc, function)
    } else {
        Ok(new)
    }
}

/// A function that does the same and has no more nodes.
pub fn simplified_function(
    alloc: Global,
    function: &CFunc,
    reached: &[Case],
    share: Share,
) -> Result<CFunc, NoMemory>
    ensures { IfOk result (DoesAs (facts_of reached.now) function.now) }
{
    frame_rules();
    let first = shortened(alloc, function, reached, share, Manner::narrow())?;
    let second = shortened(alloc, &first, reached, share, Manner::wide())?;
    shortened(alloc, &second, reached, share, Manner::narrow())
}
