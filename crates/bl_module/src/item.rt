//! Whether an item of a face can stand behind what is declared before it.

ghost use Rattle.std.specs.Prelude.{◌≡◌, ◌&&◌, [], IfOk};
ghost use Rattle.bl_module.specs.Behind.{gives_once, item_stands};
ghost use Rattle.bl_module.specs.Names.{are_new, with_fields};

use crate::names::Names;
use crate::types::{NESTING, fields_depth, types_stand};
use bl_face::{FaceField, FaceItem};
use bl_tree::tree::UnitKind;
use bl_tree::{NoMemory, Scalar, Text};
use std::alloc::Global;

/// Whether the names differ from one another.
fn differ(alloc: Global, fields: &[FaceField]) -> Result<bool, NoMemory>
    ensures { IfOk result (λ new. new ≡ are_new [] fields.now) }
{
    let mut names = Names::new(alloc);
    let new = names.add_fields(fields)?;
    Ok(new)
}

/// Whether the names of inputs and outputs differ from one another.
fn both_differ(alloc: Global, inputs: &[FaceField], outputs: &[FaceField]) -> Result<bool, NoMemory>
    ensures { IfOk result (λ new. new ≡ (are_new [] inputs.now && are_new (with_fields [] inputs.now) outputs.now)) }
{
    let mut names = Names::new(alloc);
    if !names.add_fields(inputs)? {
        return Ok(false);
    }
    let new = names.add_fields(outputs)?;
    Ok(new)
}

fn gives_once(kind: UnitKind, outputs: &[FaceField], given: Option<Scalar>) -> bool
    ensures { result ≡ gives_once kind outputs.now given }
{
    match kind {
        UnitKind::Function => outputs.is_empty() || given.is_none(),
        UnitKind::Activity => true,
    }
}

fn struct_stands(
    alloc: Global,
    names: &Names<'_>,
    name: &Text,
    fields: &[FaceField],
) -> Result<bool, NoMemory>
    ensures { IfOk result (λ stands. stands ≡ item_stands names.now (FaceItem.Struct name.now fields.now)) }
{
    let new = names.is_new(name.as_str());
    let differ = differ(alloc, fields)?;
    let stand = types_stand(names, fields);
    let depth = fields_depth(names, fields);
    Ok((new && differ) && (stand && depth < NESTING))
}

fn head_stands(
    alloc: Global,
    names: &Names<'_>,
    kind: UnitKind,
    name: &Text,
    inputs: &[FaceField],
    outputs: &[FaceField],
    given: Option<Scalar>,
) -> Result<bool, NoMemory>
    ensures { IfOk result (λ stands. stands ≡ item_stands names.now (FaceItem.Head kind name.now inputs.now outputs.now given)) }
{
    let new = names.is_new(name.as_str());
    let differ = both_differ(alloc, inputs, outputs)?;
    let stand = types_stand(names, inputs) && types_stand(names, outputs);
    let once = gives_once(kind, outputs, given);
    Ok((new && differ) && (stand && once))
}

/// Whether the item can stand where these names are declared before it.
pub fn stands(alloc: Global, names: &Names<'_>, item: &FaceItem) -> Result<bool, NoMemory>
    ensures { IfOk result (λ stands. stands ≡ item_stands names.now item.now) }
{
    match item {
        FaceItem::Struct(name, fields) => struct_stands(alloc, names, name, fields),
        FaceItem::Constant(name, of, value) => {
            Ok(names.is_new(name.as_str()) && of.contains(*value))
        }
        FaceItem::Head(kind, name, inputs, outputs, given) => {
            head_stands(alloc, names, *kind, name, inputs, outputs, *given)
        }
    }
}
