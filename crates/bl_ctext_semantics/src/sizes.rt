//! How many scalars values of types and structs have.

ghost use Rattle.std.specs.Prelude.{◌≡◌, IfOk};
ghost use Rattle.bl_ctext_semantics.specs.inner.Maps.{text_at};
ghost use Rattle.bl_ctext_semantics.specs.Saturated.{AlikeSaturated, saturated};
ghost use Rattle.bl_ctext_semantics.specs.Sizes.{size_of_member, size_of_struct, size_of_type, sizes as sizes_of_structs};

use crate::maps::{Numbers, add, number_of};
use bl_tree::NoMemory;
use bl_tree::c::{CMember, CStruct, CType};
use std::alloc::Global;
use std::collections::HashMap;

/// How many scalars a value of a type has.
pub fn type_size(sizes: &Numbers<'_>, ty: &CType) -> u64
    ensures { result ≡ size_of_type (text_at sizes.now) ty.now }
{
    match ty {
        CType::Scalar(_) => 1,
        CType::Struct(name) => number_of(sizes, name),
    }
}

/// How many scalars a member has.
fn member_size(sizes: &Numbers<'_>, member: &CMember) -> u64
    ensures { result ≡ saturated (size_of_member (text_at sizes.now) member.now) }
{
    let size = type_size(sizes, &member.ty);
    match member.length {
        Some(length) => u64::from(length).saturating_mul(size),
        None => size,
    }
}

/// How many scalars a struct has, where those of the structs in it are known.
fn struct_size(sizes: &Numbers<'_>, of: &CStruct) -> u64
    ensures { result ≡ saturated (size_of_struct (text_at sizes.now) of.now) }
{
    let members = of.members.as_slice();
    let mut size = 0u64;
    for member in members {
        size = size.saturating_add(member_size(sizes, member));
    }
    size
}

/// How many scalars each struct has. A number that 64 bits can't hold is told as 2^64 - 1.
pub fn struct_sizes<'a>(alloc: Global, list: &'a [CStruct]) -> Result<Numbers<'a>, NoMemory>
    ensures { IfOk result (λ sizes. AlikeSaturated (text_at sizes) (sizes_of_structs list.now)) }
{
    let mut sizes: Numbers<'a> = HashMap::new(alloc);
    for of in list {
        let size = struct_size(&sizes, of);
        add(&mut sizes, of.name.as_str(), size)?;
    }
    Ok(sizes)
}
