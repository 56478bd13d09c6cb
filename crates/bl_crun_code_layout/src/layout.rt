//! Where the members of structs stand among their cells, and the parameters and locals of functions in their frames.

ghost use Rattle.std.specs.Prelude.{◌≡◌, ◌+◌, ◌*◌, IfOk, List, map, OnOk, ℕ};
ghost use Rattle.std.specs.Option.{option_or};
ghost use Rattle.bl_tree.specs.declared.c.CLocal.{CLocal as CLocalTree};
ghost use Rattle.bl_tree.specs.Reduce.{total};
ghost use Rattle.bl_ctext_semantics.specs.Saturated.{saturated};
ghost use Rattle.bl_ctext_semantics.specs.Sizes.{size_of_member, size_of_param, size_of_type};
ghost use Rattle.bl_ctext_semantics.specs.Tables.{found, no_entries, table_of, with_entry};
ghost use Rattle.bl_ctext_semantics_laws.specs.Layout.{capped, frame_cells, layout_of, locals_laid, members_laid, params_laid, slots_of};
ghost use Rattle.bl_crun_code_layout.specs.Views.{members_in, sizes_in, slots_known, structs_in};

use crate::here::{Laid, Members, Sizes, Slot, type_size};
use crate::numbers::behind;
use bl_ctext_semantics::maps::{add, has};
use bl_tree::NoMemory;
use bl_tree::c::{CFunc, CLocal, CMember, CParam, CStruct};
use std::alloc::Global;
use std::collections::HashMap;

/// How many cells a member has, where a number that is too large is told as the greatest.
fn member_size(sizes: &Sizes<'_>, member: &CMember) -> usize
    ensures { result ≡ saturated (size_of_member (sizes_in sizes.now) member.now) }
{
    let size = type_size(sizes, &member.ty);
    match member.length {
        Some(length) => (length as usize).saturating_mul(size),
        None => size,
    }
}

/// How many cells a parameter has.
fn param_size(sizes: &Sizes<'_>, param: &CParam) -> usize
    ensures { result ≡ size_of_param (sizes_in sizes.now) param.now }
{
    if param.pointer {
        1
    } else {
        type_size(sizes, &param.ty)
    }
}

/// Where the member behind another begins.
fn past(sizes: &Sizes<'_>, at: usize, member: &CMember) -> usize
    ensures { result ≡ capped (at + size_of_member (sizes_in sizes.now) member.now) }
{
    behind(at, member_size(sizes, member))
}

fn members<'a>(
    alloc: Global,
    sizes: &Sizes<'_>,
    list: &'a [CMember],
) -> Result<Members<'a>, NoMemory>
    ensures { IfOk result (λ laid. (asked : List ℕ) → members_in laid asked ≡ table_of (members_laid (sizes_in sizes.now) 0 list.now) asked) }
{
    let mut laid: Members<'a> = HashMap::new(alloc);
    let mut at = 0usize;
    for member in list {
        add(&mut laid, member.name.as_str(), Laid { at, it: member })?;
        at = past(sizes, at, member);
    }
    Ok(laid)
}

fn add_struct<'a>(
    alloc: Global,
    sizes: &Sizes<'_>,
    structs: &mut HashMap<&'a str, Members<'a>>,
    of: &'a CStruct,
) -> Result<(), NoMemory>
    ensures { OnOk result ((asked : List ℕ) →
        structs_in structs.new asked ≡ with_entry (structs_in structs.old) of.now.name (layout_of (sizes_in sizes.now) of.now).1 asked) }
{
    if has(structs, &of.name) {
        return Ok(());
    }
    let laid = members(alloc, sizes, &of.members)?;
    match structs.insert(of.name.as_str(), laid) {
        Ok(_) => Ok(()),
        Err(_) => Err(NoMemory),
    }
}

/// The members of each struct.
pub fn struct_layouts<'a>(
    alloc: Global,
    sizes: &Sizes<'_>,
    list: &'a [CStruct],
) -> Result<HashMap<&'a str, Members<'a>>, NoMemory>
    ensures { IfOk result (λ structs. (asked : List ℕ) → structs_in structs asked ≡ table_of (map (layout_of (sizes_in sizes.now)) list.now) asked) }
{
    let mut structs = HashMap::new(alloc);
    for of in list {
        add_struct(alloc, sizes, &mut structs, of)?;
    }
    Ok(structs)
}

/// The parameters and locals of a function.
pub fn slots<'a>(
    alloc: Global,
    sizes: &Sizes<'_>,
    function: &'a CFunc,
) -> Result<HashMap<&'a str, Slot<'a>>, NoMemory>
    ensures { IfOk result (λ slots. (asked : List ℕ) → slots_known slots asked ≡ slots_of (sizes_in sizes.now) function.now asked) }
{
    let mut slots = HashMap::new(alloc);
    let at = add_params(sizes, &mut slots, &function.params)?;
    add_locals(sizes, &mut slots, at, &function.locals)?;
    Ok(slots)
}

fn add_params<'a>(
    sizes: &Sizes<'_>,
    slots: &mut HashMap<&'a str, Slot<'a>>,
    params: &'a [CParam],
) -> Result<usize, NoMemory>
    ensures slots { IfOk result (λ at. (locals : List CLocalTree) (asked : List ℕ) →
        option_or (slots_known slots.new asked) (found asked (locals_laid (sizes_in sizes.now) at locals))
        ≡ option_or (slots_known slots.old asked) (found asked (params_laid (sizes_in sizes.now) 0 params.now locals))) }
{
    let mut at = 0usize;
    for param in params {
        let slot = Slot {
            at,
            pointer: param.pointer,
            ty: &param.ty,
        };
        add(slots, param.name.as_str(), slot)?;
        at = behind(at, param_size(sizes, param));
    }
    Ok(at)
}

fn add_locals<'a>(
    sizes: &Sizes<'_>,
    slots: &mut HashMap<&'a str, Slot<'a>>,
    from: usize,
    locals: &'a [CLocal],
) -> Result<(), NoMemory>
    ensures { OnOk result ((asked : List ℕ) →
        slots_known slots.new asked ≡ option_or (slots_known slots.old asked) (found asked (locals_laid (sizes_in sizes.now) from locals.now))) }
{
    let mut at = from;
    for local in locals {
        let slot = Slot {
            at,
            pointer: false,
            ty: &local.ty,
        };
        add(slots, local.name.as_str(), slot)?;
        at = behind(at, type_size(sizes, &local.ty));
    }
    Ok(())
}

fn params_size(sizes: &Sizes<'_>, params: &[CParam]) -> usize
    ensures { result ≡ capped (total (map (size_of_param (sizes_in sizes.now)) params.now)) }
{
    let mut size = 0usize;
    for param in params {
        size = behind(size, param_size(sizes, param));
    }
    size
}

fn locals_size(sizes: &Sizes<'_>, locals: &[CLocal]) -> usize
    ensures { result ≡ capped (total (map (λ l. size_of_type (sizes_in sizes.now) l.ty) locals.now)) }
{
    let mut size = 0usize;
    for local in locals {
        size = behind(size, type_size(sizes, &local.ty));
    }
    size
}

/// How many cells the frame of a function has.
pub fn frame_size(sizes: &Sizes<'_>, function: &CFunc) -> usize
    ensures { result ≡ frame_cells (sizes_in sizes.now) function.now }
{
    behind(
        params_size(sizes, &function.params),
        locals_size(sizes, &function.locals),
    )
}
