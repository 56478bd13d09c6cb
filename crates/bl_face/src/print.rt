//! The text of a face: a line for each item.

ghost use Rattle.std.specs.Prelude.{◌≡◌, ◌++◌, IfOk, OnOk};
ghost use Rattle.std.specs.Fmt.{signed_decimal};
ghost use Rattle.bl_face.specs.Text.{face_text, item_text, struct_text, fields_text, constant_text, constant_front, head_text, tail_text};
ghost use Rattle.bl_face.specs.Text.{params_text, field_text, lengths_text, base_text, comma_before, value_text, truth_text, result_text};
ghost use Rattle.bl_face.specs.Text.{items_text, scalar_word, kind_word, length_text};

use crate::face::Face;
use crate::item::{FaceBase, FaceField, FaceItem, FaceType};
use bl_tree::tree::UnitKind;
use bl_tree::{NoMemory, Scalar, Width};
use itoa::Buffer;
use std::alloc::Global;

/// The text of the face. Fails only for want of memory.
pub fn print_face(alloc: Global, face: &Face) -> Result<Vec<u8>, NoMemory>
    ensures { IfOk result (λ text. text.items ≡ face_text face.now) }
{
    let mut out = Vec::new(alloc);
    items(&mut out, &face.items)?;
    Ok(out)
}

fn items(out: &mut Vec<u8>, items: &[FaceItem]) -> Result<(), NoMemory>
    ensures { OnOk result (out.new.items ≡ out.old.items ++ items_text items.now) }
{
    for one in items {
        item(out, one)?;
    }
    Ok(())
}

fn item(out: &mut Vec<u8>, item: &FaceItem) -> Result<(), NoMemory>
    ensures { OnOk result (out.new.items ≡ out.old.items ++ item_text item.now) }
{
    match item {
        FaceItem::Struct(name, fields) => structure(out, name.as_str(), fields),
        FaceItem::Constant(name, scalar, value) => constant(out, name.as_str(), *scalar, *value),
        FaceItem::Head(kind, name, inputs, outputs, result) => {
            head(out, *kind, name.as_str(), inputs)?;
            tail(out, outputs, *result)
        }
    }
}

#[tactic(auto, unfolding(crate::specs::Text::struct_text))]
fn structure(out: &mut Vec<u8>, name: &str, list: &[FaceField]) -> Result<(), NoMemory>
    ensures { OnOk result (out.new.items ≡ out.old.items ++ struct_text name.now list.now) }
{
    out.extend_from_slice(b"struct ")?;
    out.extend_from_slice(name.as_bytes())?;
    fields(out, list)?;
    out.extend_from_slice(b" end\n")?;
    Ok(())
}

fn fields(out: &mut Vec<u8>, fields: &[FaceField]) -> Result<(), NoMemory>
    ensures { OnOk result (out.new.items ≡ out.old.items ++ fields_text fields.now) }
{
    for one in fields {
        out.extend_from_slice(b" var ")?;
        field(out, one)?;
    }
    Ok(())
}

#[tactic(auto, unfolding(crate::specs::Text::constant_text))]
fn constant(out: &mut Vec<u8>, name: &str, of: Scalar, number: i128) -> Result<(), NoMemory>
    ensures { OnOk result (out.new.items ≡ out.old.items ++ constant_text name.now of number) }
{
    constant_front(out, name, of)?;
    value(out, of, number)?;
    out.extend_from_slice(b"\n")?;
    Ok(())
}

/// A constant as far as its value.
#[tactic(auto, unfolding(crate::specs::Text::constant_front))]
fn constant_front(out: &mut Vec<u8>, name: &str, of: Scalar) -> Result<(), NoMemory>
    ensures { OnOk result (out.new.items ≡ out.old.items ++ constant_front name.now of) }
{
    out.extend_from_slice(b"const ")?;
    out.extend_from_slice(name.as_bytes())?;
    out.extend_from_slice(b": ")?;
    scalar(out, of)?;
    out.extend_from_slice(b" = ")?;
    Ok(())
}

/// A unit as far as its inputs.
#[tactic(auto, unfolding(crate::specs::Text::head_text))]
fn head(out: &mut Vec<u8>, kind: UnitKind, name: &str, inputs: &[FaceField]) -> Result<(), NoMemory>
    ensures { OnOk result (out.new.items ≡ out.old.items ++ head_text kind name.now inputs.now) }
{
    out.extend_from_slice(kind_word(kind))?;
    out.extend_from_slice(name.as_bytes())?;
    out.extend_from_slice(b" (")?;
    params(out, inputs)?;
    out.extend_from_slice(b")")?;
    Ok(())
}

/// What follows a unit's inputs.
#[tactic(auto, unfolding(crate::specs::Text::tail_text))]
fn tail(out: &mut Vec<u8>, outputs: &[FaceField], of: Option<Scalar>) -> Result<(), NoMemory>
    ensures { OnOk result (out.new.items ≡ out.old.items ++ tail_text outputs.now of) }
{
    out.extend_from_slice(b"(")?;
    params(out, outputs)?;
    out.extend_from_slice(b")")?;
    result(out, of)?;
    out.extend_from_slice(b"\n")?;
    Ok(())
}

fn result(out: &mut Vec<u8>, of: Option<Scalar>) -> Result<(), NoMemory>
    ensures { OnOk result (out.new.items ≡ out.old.items ++ result_text of) }
{
    if let Some(of) = of {
        out.extend_from_slice(b" returns ")?;
        scalar(out, of)?;
    }
    Ok(())
}

fn params(out: &mut Vec<u8>, params: &[FaceField]) -> Result<(), NoMemory>
    ensures { OnOk result (out.new.items ≡ out.old.items ++ params_text params.now) }
{
    let mut first = true;
    for one in params {
        comma(out, first)?;
        first = false;
        field(out, one)?;
    }
    Ok(())
}

fn comma(out: &mut Vec<u8>, first: bool) -> Result<(), NoMemory>
    ensures { OnOk result (out.new.items ≡ out.old.items ++ comma_before first) }
{
    if !first {
        out.extend_from_slice(b", ")?;
    }
    Ok(())
}

#[tactic(auto, unfolding(crate::specs::Text::field_text))]
fn field(out: &mut Vec<u8>, field: &FaceField) -> Result<(), NoMemory>
    ensures { OnOk result (out.new.items ≡ out.old.items ++ field_text field.now) }
{
    out.extend_from_slice(field.name.as_str().as_bytes())?;
    out.extend_from_slice(b": ")?;
    lengths(out, &field.ty.lengths)?;
    base(out, &field.ty.base)
}

fn lengths(out: &mut Vec<u8>, lengths: &[u32]) -> Result<(), NoMemory>
    ensures { OnOk result (out.new.items ≡ out.old.items ++ lengths_text lengths.now) }
{
    for one in lengths {
        length(out, *one)?;
    }
    Ok(())
}

#[tactic(auto, unfolding(crate::specs::Text::length_text))]
fn length(out: &mut Vec<u8>, length: u32) -> Result<(), NoMemory>
    ensures { OnOk result (out.new.items ≡ out.old.items ++ length_text length) }
{
    let mut buffer = Buffer::new();
    out.extend_from_slice(b"[")?;
    out.extend_from_slice(buffer.format(length).as_bytes())?;
    out.extend_from_slice(b"]")?;
    Ok(())
}

fn base(out: &mut Vec<u8>, base: &FaceBase) -> Result<(), NoMemory>
    ensures { OnOk result (out.new.items ≡ out.old.items ++ base_text base.now) }
{
    match base {
        FaceBase::Scalar(of) => scalar(out, *of),
        FaceBase::Struct(name) => Ok(out.extend_from_slice(name.as_str().as_bytes())?),
    }
}

fn scalar(out: &mut Vec<u8>, of: Scalar) -> Result<(), NoMemory>
    ensures { OnOk result (out.new.items ≡ out.old.items ++ scalar_word of) }
{
    Ok(out.extend_from_slice(scalar_name(of).as_bytes())?)
}

/// The value of a constant of the type.
#[tactic(auto, unfolding(crate::specs::Text::value_text))]
fn value(out: &mut Vec<u8>, of: Scalar, value: i128) -> Result<(), NoMemory>
    ensures { OnOk result (out.new.items ≡ out.old.items ++ value_text of value) }
{
    match of {
        Scalar::Bool => truth(out, value),
        Scalar::Int(_) | Scalar::Nat(_) | Scalar::Bits(_) => number(out, value),
    }
}

fn truth(out: &mut Vec<u8>, value: i128) -> Result<(), NoMemory>
    ensures { OnOk result (out.new.items ≡ out.old.items ++ truth_text value) }
{
    if value == 0 {
        return Ok(out.extend_from_slice(b"false")?);
    }
    if value == 1 {
        return Ok(out.extend_from_slice(b"true")?);
    }
    number(out, value)
}

fn number(out: &mut Vec<u8>, value: i128) -> Result<(), NoMemory>
    ensures { OnOk result (out.new.items ≡ out.old.items ++ signed_decimal value) }
{
    let mut buffer = Buffer::new();
    Ok(out.extend_from_slice(buffer.format(value).as_bytes())?)
}

fn kind_word(kind: UnitKind) -> &'static [u8]
    ensures { result.now ≡ kind_word kind }
{
    match kind {
        UnitKind::Function => b"function ",
        UnitKind::Activity => b"activity ",
    }
}

fn scalar_name(of: Scalar) -> &'static str
    ensures { result.now ≡ scalar_word of }
{
    match of {
        Scalar::Bool => "bool",
        Scalar::Int(Width::W8) => "int8",
        Scalar::Int(Width::W16) => "int16",
        Scalar::Int(Width::W32) => "int32",
        Scalar::Int(Width::W64) => "int64",
        Scalar::Nat(Width::W8) => "nat8",
        Scalar::Nat(Width::W16) => "nat16",
        Scalar::Nat(Width::W32) => "nat32",
        Scalar::Nat(Width::W64) => "nat64",
        Scalar::Bits(Width::W8) => "bits8",
        Scalar::Bits(Width::W16) => "bits16",
        Scalar::Bits(Width::W32) => "bits32",
        Scalar::Bits(Width::W64) => "bits64",
    }
}
