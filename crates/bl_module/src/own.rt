//! The face of a text, from its tree and what is known at its end.

ghost use Rattle.std.specs.Prelude.{◌≡◌, ◌+◌, ◌++◌, IfOk, IsTrue, OnOk, slice_get};
ghost use Rattle.std.specs.List.{list_all};
ghost use Rattle.bl_module.specs.Own.{constant_item, item_of, items_from, known_fields, known_result, known_vars, next_after, struct_item};
ghost use Rattle.bl_module.specs.Own.{typed_constant, unit_item};
ghost use Rattle.bl_parse_tree.specs.Names.{item_stands};

use crate::params::{fields_known_from, following, params_known_from};
use bl_face::{Face, FaceItem};
use bl_parse_tree::item::{RawItem, RawStruct, RawUnit};
use bl_parse_tree::name::Name;
use bl_tree::tree::{Field, StructDef, Unit, Var};
use bl_tree::{List, NoMemory, Scalar, Text};
use bl_types::{Constant, Known};
use std::alloc::Global;

/// The positions of the next struct, constant and unit among those that are known.
#[derive(Clone, Copy)]
pub struct Next {
    pub structs: usize,
    pub constants: usize,
    pub units: usize,
}

/// The face of the items, whose structs, constants and units are known from these positions on.
pub fn face_of(
    alloc: Global,
    known: &Known,
    next: Next,
    items: &[RawItem],
) -> Result<Face, NoMemory>
    requires { IsTrue (list_all item_stands items.now) }
    ensures { IfOk result (λ face. face.items ≡ items_from known.now next items.now) }
{
    let items = items_from(alloc, known, next, items)?;
    Ok(Face { items })
}

fn items_from(
    alloc: Global,
    known: &Known,
    next: Next,
    items: &[RawItem],
) -> Result<List<FaceItem>, NoMemory>
    ensures { IfOk result (λ made. made ≡ items_from known.now next items.now) }
{
    let mut next = next;
    let mut made = List::new(alloc);
    for item in items {
        push_item(alloc, known, next, item, &mut made)?;
        next = next_after(next, item)?;
    }
    Ok(made)
}

/// The positions behind an item.
fn next_after(next: Next, item: &RawItem) -> Result<Next, NoMemory>
    ensures { IfOk result (λ behind. behind ≡ next_after next item.now) }
{
    match item {
        RawItem::Struct(_) => Ok(Next {
            structs: following(next.structs)?,
            ..next
        }),
        RawItem::Constant(_) => Ok(Next {
            constants: following(next.constants)?,
            ..next
        }),
        RawItem::Unit(_) => Ok(Next {
            units: following(next.units)?,
            ..next
        }),
    }
}

fn push_item(
    alloc: Global,
    known: &Known,
    next: Next,
    item: &RawItem,
    made: &mut List<FaceItem>,
) -> Result<(), NoMemory>
    ensures { OnOk result (made.new ≡ made.old ++ item_of known.now next item.now) }
{
    match item {
        RawItem::Struct(def) => {
            let item = struct_item(alloc, def, &known.structs, next.structs)?;
            Ok(made.push(item)?)
        }
        RawItem::Constant(constant) => {
            let known = constant_at(&known.globals, next.constants);
            push_constant(alloc, &constant.name, known, made)
        }
        RawItem::Unit(unit) => {
            let item = unit_item(alloc, unit, &known.units, next.units)?;
            Ok(made.push(item)?)
        }
    }
}

fn struct_item(
    alloc: Global,
    written: &RawStruct,
    structs: &[StructDef],
    k: usize,
) -> Result<FaceItem, NoMemory>
    ensures { IfOk result (λ made. made ≡ struct_item written.now (slice_get structs.now k)) }
{
    let name = Text::copy_of(alloc, written.name.text.as_str())?;
    let fields = fields_known_from(alloc, fields_at(structs, k), &written.fields)?;
    Ok(FaceItem::Struct(name, fields))
}

fn push_constant(
    alloc: Global,
    name: &Name,
    known: Option<Constant>,
    made: &mut List<FaceItem>,
) -> Result<(), NoMemory>
    ensures { OnOk result (made.new ≡ made.old ++ constant_item name.now known) }
{
    match known {
        Some(constant) => push_typed(alloc, name, constant.ty, constant.value, made),
        None => Ok(()),
    }
}

fn push_typed(
    alloc: Global,
    name: &Name,
    of: Option<Scalar>,
    value: i128,
    made: &mut List<FaceItem>,
) -> Result<(), NoMemory>
    ensures { OnOk result (made.new ≡ made.old ++ typed_constant name.now.text of value) }
{
    match of {
        Some(of) => {
            let name = Text::copy_of(alloc, name.text.as_str())?;
            Ok(made.push(FaceItem::Constant(name, of, value))?)
        }
        None => Ok(()),
    }
}

fn unit_item(
    alloc: Global,
    written: &RawUnit,
    units: &[Unit],
    k: usize,
) -> Result<FaceItem, NoMemory>
    ensures { IfOk result (λ made. made ≡ unit_item written.now (slice_get units.now k)) }
{
    let name = Text::copy_of(alloc, written.name.text.as_str())?;
    let vars = vars_at(units, k);
    let inputs = params_known_from(alloc, 0, vars, &written.inputs)?;
    let outputs = params_known_from(alloc, written.inputs.len(), vars, &written.outputs)?;
    let given = result_at(units, k);
    Ok(FaceItem::Head(written.kind, name, inputs, outputs, given))
}

fn fields_at(structs: &[StructDef], k: usize) -> &[Field]
    ensures { result.now ≡ known_fields (slice_get structs.now k) }
{
    if k < structs.len() {
        &structs[k].fields
    } else {
        &[]
    }
}

fn constant_at(constants: &[Constant], k: usize) -> Option<Constant>
    ensures { result ≡ slice_get constants.now k }
{
    constants.get(k).copied()
}

fn vars_at(units: &[Unit], k: usize) -> &[Var]
    ensures { result.now ≡ known_vars (slice_get units.now k) }
{
    if k < units.len() { &units[k].vars } else { &[] }
}

fn result_at(units: &[Unit], k: usize) -> Option<Scalar>
    ensures { result ≡ known_result (slice_get units.now k) }
{
    if k < units.len() {
        units[k].result
    } else {
        None
    }
}
