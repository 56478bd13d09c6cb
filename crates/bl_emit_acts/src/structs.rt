//! The C structs of structs and arrays.

ghost use Rattle.std.specs.Prelude.{◌≡◌, IfOk, map};
ghost use Rattle.bl_emit_acts.specs.Structs.{c_array, c_definition, c_elements, c_field};

use crate::parts::{NOWHERE, prefixed};
use crate::types::{c_type, name_of_array};
use bl_tree::c::{CMember, CStruct};
use bl_tree::tree::{Field, StructDef, Ty};
use bl_tree::{List, NoMemory, Text};
use std::alloc::Global;

/// The member for a field.
fn member(alloc: Global, structs: &[StructDef], field: &Field) -> Result<CMember, NoMemory>
    ensures { IfOk result (λ m. m ≡ c_field structs.now field.now) }
{
    Ok(CMember {
        ty: c_type(alloc, structs, &field.ty)?,
        name: prefixed(alloc, "m_", field.name.as_str())?,
        length: None,
    })
}

/// The members for fields.
fn members(
    alloc: Global,
    structs: &[StructDef],
    fields: &[Field],
) -> Result<List<CMember>, NoMemory>
    ensures { IfOk result (λ members. members ≡ map (c_field structs.now) fields.now) }
{
    let mut made = List::new(alloc);
    for field in fields {
        made.push(member(alloc, structs, field)?)?;
    }
    Ok(made)
}

/// The C struct of a struct. In a text it stands behind those of the structs and arrays in it. Fails only for want of memory.
pub fn definition(
    alloc: Global,
    structs: &[StructDef],
    def: &StructDef,
) -> Result<CStruct, NoMemory>
    ensures { IfOk result (λ s. s ≡ c_definition structs.now def.now) }
{
    Ok(CStruct {
        place: NOWHERE,
        name: prefixed(alloc, "s_", def.name.as_str())?,
        members: members(alloc, structs, &def.fields)?,
    })
}

/// The one member of an array's struct.
fn elements(alloc: Global, structs: &[StructDef], n: u32, element: &Ty) -> Result<CMember, NoMemory>
    ensures { IfOk result (λ m. m ≡ c_elements structs.now n element.now) }
{
    Ok(CMember {
        ty: c_type(alloc, structs, element)?,
        name: Text::copy_of(alloc, "e")?,
        length: Some(n),
    })
}

/// The C struct of an array of so many elements of a type. In a text it stands behind that of the type. Fails only for want
/// of memory.
pub fn array(
    alloc: Global,
    structs: &[StructDef],
    n: u32,
    element: &Ty,
) -> Result<CStruct, NoMemory>
    ensures { IfOk result (λ s. s ≡ c_array structs.now n element.now) }
{
    let mut members = List::new(alloc);
    members.push(elements(alloc, structs, n, element)?)?;
    Ok(CStruct {
        place: NOWHERE,
        name: name_of_array(alloc, structs, n, element)?,
        members,
    })
}
