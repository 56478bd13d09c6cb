//! Types of faces: whether they stand, how deep they are nested, and what they are by position.

ghost use Rattle.std.specs.Prelude.{◌≡◌, ◌<◌, ◌^◌, IfOk, OnOk};
ghost use Rattle.std.specs.List.{list_all};
ghost use Rattle.bl_module.specs.Behind.{base_depth, resolved_base, base_stands, depth_of, fields_depth, is_length, is_struct, struct_position};
ghost use Rattle.bl_module.specs.Behind.{type_depth, resolved_type, type_stands, types_stand};

use crate::names::{Names, Referent};
use bl_face::{FaceBase, FaceField, FaceType};
use bl_tree::tree::Ty;
use bl_tree::{Box, NoMemory};
use std::alloc::Global;

/// How deep a type may be nested.
pub const NESTING: u128 = 100;

/// The most elements of an array.
const ELEMENTS: u32 = 65_536;

fn struct_position(referent: Option<Referent>) -> u32
    ensures { result ≡ struct_position referent }
{
    match referent {
        Some(Referent::Struct(position, _)) => position,
        Some(Referent::Other) | None => 0,
    }
}

fn depth_of(referent: Option<Referent>) -> u32
    ensures { result ≡ depth_of referent }
{
    match referent {
        Some(Referent::Struct(_, depth)) => depth,
        Some(Referent::Other) | None => 0,
    }
}

fn is_struct(referent: Option<Referent>) -> bool
    ensures { result ≡ is_struct referent }
{
    match referent {
        Some(Referent::Struct(_, _)) => true,
        Some(Referent::Other) | None => false,
    }
}

fn base_depth(names: &Names<'_>, base: &FaceBase) -> u32
    ensures { result ≡ base_depth names.now base.now }
{
    match base {
        FaceBase::Scalar(_) => 0,
        FaceBase::Struct(name) => depth_of(names.find(name.as_str())),
    }
}

fn type_depth(names: &Names<'_>, ty: &FaceType) -> u128
    ensures { result ≡ type_depth names.now ty.now }
{
    ty.lengths.len() as u128 + u128::from(base_depth(names, &ty.base))
}

/// How deep the deepest type of the fields is nested.
pub fn fields_depth(names: &Names<'_>, fields: &[FaceField]) -> u128
    ensures { result ≡ fields_depth names.now fields.now }
{
    let mut deepest = 0;
    for field in fields {
        deepest = type_depth(names, &field.ty).max(deepest);
    }
    deepest
}

fn base_stands(names: &Names<'_>, base: &FaceBase) -> bool
    ensures { result ≡ base_stands names.now base.now }
{
    match base {
        FaceBase::Scalar(_) => true,
        FaceBase::Struct(name) => is_struct(names.find(name.as_str())),
    }
}

fn are_lengths(lengths: &[u32]) -> bool
    ensures { result ≡ list_all is_length lengths.now }
{
    lengths.iter().all(|n| 1 <= *n && *n <= ELEMENTS)
}

fn type_stands(names: &Names<'_>, ty: &FaceType) -> bool
    ensures { result ≡ type_stands names.now ty.now }
{
    base_stands(names, &ty.base) && are_lengths(&ty.lengths) && type_depth(names, ty) <= NESTING
}

/// Whether the types of the fields or parameters stand.
pub fn types_stand(names: &Names<'_>, fields: &[FaceField]) -> bool
    ensures { result ≡ types_stand names.now fields.now }
{
    for field in fields {
        if !type_stands(names, &field.ty) {
            return false;
        }
    }
    true
}

fn resolved_base(names: &Names<'_>, base: &FaceBase) -> Ty
    ensures { result ≡ resolved_base names.now base.now }
{
    match base {
        FaceBase::Scalar(of) => Ty::Scalar(*of),
        FaceBase::Struct(name) => Ty::Struct(struct_position(names.find(name.as_str()))),
    }
}

/// The type, by the position of its struct.
pub fn resolved_type(alloc: Global, names: &Names<'_>, ty: &FaceType) -> Result<Ty, NoMemory>
    ensures { IfOk result (λ made. made ≡ resolved_type names.now ty.now) }
{
    let lengths = ty.lengths.as_slice();
    let mut made = resolved_base(names, &ty.base);
    for k in (0..lengths.len()).rev() {
        made = Ty::Array(lengths[k], Box::new(alloc, made)?);
    }
    Ok(made)
}
