//! The inputs and outputs of a file.

ghost use Rattle.std.specs.Prelude.{◌≡◌, codes, drop, filter_map, IfOk, List};
ghost use Rattle.bl_tree.specs.declared.c.CFunc.{CFunc};
ghost use Rattle.bl_ctext_semantics.specs.Cells.{column_of, inputs_of, members_of, outputs_of};
ghost use Rattle.bl_ctext_semantics.specs.Parts.{parts_from};
ghost use Rattle.bl_crun_ports.specs.Ports.{StructsOfWellFormed};
ghost use Rattle.bl_crun_ports.specs.inner.Prefixed.{AllPrefixed, Prefixed};

use bl_tree::c::{CMember, CStruct, CType};
use bl_tree::{Column, List, NoMemory, Text};
use std::alloc::Global;

/// The members of the struct of a name, none where there is no such struct.
fn members<'a>(structs: &'a [CStruct], name: &str) -> &'a [CMember]
    ensures { result.now ≡ members_of name.now structs.now }
{
    for of in structs {
        if of.name.as_str() == name {
            return &of.members;
        }
    }
    &[]
}

/// The members of the struct of a name, behind the first.
fn ports<'a>(structs: &'a [CStruct], name: &str) -> &'a [CMember]
    ensures { result.now ≡ drop 1 (members_of name.now structs.now) }
{
    match members(structs, name) {
        [_, ports @ ..] => ports,
        [] => &[],
    }
}

fn column(alloc: Global, member: &CMember) -> Result<Option<Column>, NoMemory>
    requires { Prefixed member.now.name }
    ensures { IfOk result (λ column. column ≡ column_of member.now) }
{
    match &member.ty {
        CType::Scalar(ty) => {
            let name = Text::copy_of(alloc, &member.name[2..])?;
            Ok(Some(Column { name, ty: *ty }))
        }
        CType::Struct(_) => Ok(None),
    }
}

fn columns(alloc: Global, members: &[CMember]) -> Result<List<Column>, NoMemory>
    requires { AllPrefixed members.now }
    ensures { IfOk result (λ columns. columns ≡ filter_map column_of members.now) }
{
    let mut columns = List::new(alloc);
    for member in members {
        if let Some(column) = column(alloc, member)? {
            columns.push(column)?;
        }
    }
    Ok(columns)
}

/// The inputs of a well-formed file with these structs.
pub fn inputs(alloc: Global, structs: &[CStruct]) -> Result<List<Column>, NoMemory>
    requires { StructsOfWellFormed structs.now }
    ensures { (funcs : List CFunc) → IfOk result (λ columns. columns ≡ inputs_of (parts_from structs.now funcs)) }
{
    columns(alloc, ports(structs, "bl_in"))
}

/// The outputs of a well-formed file with these structs.
pub fn outputs(alloc: Global, structs: &[CStruct]) -> Result<List<Column>, NoMemory>
    requires { StructsOfWellFormed structs.now }
    ensures { (funcs : List CFunc) → IfOk result (λ columns. columns ≡ outputs_of (parts_from structs.now funcs)) }
{
    columns(alloc, ports(structs, "bl_out"))
}
