//! Copies of faces.

ghost use Rattle.std.specs.Prelude.{◌≡◌, IfOk};

use crate::face::Face;
use crate::item::{FaceBase, FaceField, FaceItem, FaceType};
use bl_tree::{List, NoMemory, Text};
use std::alloc::Global;

impl Face {
    /// The same face once more. Fails only for want of memory.
    pub fn copy(&self, alloc: Global) -> Result<Face, NoMemory>
        ensures { IfOk result (λ copy. copy.items ≡ self.now.items) }
    {
        let items = items_of(alloc, &self.items)?;
        Ok(Face { items })
    }
}

fn items_of(alloc: Global, items: &[FaceItem]) -> Result<List<FaceItem>, NoMemory>
    ensures { IfOk result (λ copy. copy ≡ items.now) }
{
    let mut copy = List::new(alloc);
    for item in items {
        let one = item_of(alloc, item)?;
        copy.push(one)?;
    }
    Ok(copy)
}

fn item_of(alloc: Global, item: &FaceItem) -> Result<FaceItem, NoMemory>
    ensures { IfOk result (λ copy. copy ≡ item.now) }
{
    match item {
        FaceItem::Struct(name, fields) => {
            let name = text_of(alloc, name)?;
            Ok(FaceItem::Struct(name, fields_of(alloc, fields)?))
        }
        FaceItem::Constant(name, scalar, value) => {
            Ok(FaceItem::Constant(text_of(alloc, name)?, *scalar, *value))
        }
        FaceItem::Head(kind, name, inputs, outputs, result) => {
            let name = text_of(alloc, name)?;
            let inputs = fields_of(alloc, inputs)?;
            let outputs = fields_of(alloc, outputs)?;
            Ok(FaceItem::Head(*kind, name, inputs, outputs, *result))
        }
    }
}

fn fields_of(alloc: Global, fields: &[FaceField]) -> Result<List<FaceField>, NoMemory>
    ensures { IfOk result (λ copy. copy ≡ fields.now) }
{
    let mut copy = List::new(alloc);
    for field in fields {
        let one = field_of(alloc, field)?;
        copy.push(one)?;
    }
    Ok(copy)
}

fn field_of(alloc: Global, field: &FaceField) -> Result<FaceField, NoMemory>
    ensures { IfOk result (λ copy. copy ≡ field.now) }
{
    let name = text_of(alloc, &field.name)?;
    let ty = type_of(alloc, &field.ty)?;
    Ok(FaceField { name, ty })
}

fn type_of(alloc: Global, ty: &FaceType) -> Result<FaceType, NoMemory>
    ensures { IfOk result (λ copy. copy ≡ ty.now) }
{
    let lengths = lengths_of(alloc, &ty.lengths)?;
    let base = base_of(alloc, &ty.base)?;
    Ok(FaceType { lengths, base })
}

fn lengths_of(alloc: Global, lengths: &[u32]) -> Result<List<u32>, NoMemory>
    ensures { IfOk result (λ copy. copy ≡ lengths.now) }
{
    let mut copy = List::new(alloc);
    for length in lengths {
        copy.push(*length)?;
    }
    Ok(copy)
}

fn base_of(alloc: Global, base: &FaceBase) -> Result<FaceBase, NoMemory>
    ensures { IfOk result (λ copy. copy ≡ base.now) }
{
    match base {
        FaceBase::Scalar(scalar) => Ok(FaceBase::Scalar(*scalar)),
        FaceBase::Struct(name) => Ok(FaceBase::Struct(text_of(alloc, name)?)),
    }
}

fn text_of(alloc: Global, text: &Text) -> Result<Text, NoMemory>
    ensures { IfOk result (λ copy. copy ≡ text.now) }
{
    Ok(Text::copy_of(alloc, text.as_str())?)
}
