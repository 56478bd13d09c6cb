//! Copies of structs and of functions with their parameters and locals.

ghost use Rattle.std.specs.Prelude.{◌≡◌, IfOk};

use bl_simplify_facts::copy_stmt::block;
use bl_tree::c::{CFunc, CLocal, CMember, CParam, CStruct, CType};
use bl_tree::{List, NoMemory, Text};
use std::alloc::Global;

fn copied_type(alloc: Global, ty: &CType) -> Result<CType, NoMemory>
    ensures { IfOk result (λ copy. copy ≡ ty.now) }
{
    match ty {
        CType::Scalar(scalar) => Ok(CType::Scalar(*scalar)),
        CType::Struct(name) => Ok(CType::Struct(Text::copy_of(alloc, name)?)),
    }
}

fn copied_param(alloc: Global, param: &CParam) -> Result<CParam, NoMemory>
    ensures { IfOk result (λ copy. copy ≡ param.now) }
{
    Ok(CParam {
        ty: copied_type(alloc, &param.ty)?,
        pointer: param.pointer,
        name: Text::copy_of(alloc, &param.name)?,
    })
}

pub fn copied_params(alloc: Global, params: &[CParam]) -> Result<List<CParam>, NoMemory>
    ensures { IfOk result (λ copy. copy ≡ params.now) }
{
    let mut copy = List::new(alloc);
    for param in params {
        copy.push(copied_param(alloc, param)?)?;
    }
    Ok(copy)
}

pub fn copied_local(alloc: Global, local: &CLocal) -> Result<CLocal, NoMemory>
    ensures { IfOk result (λ copy. copy ≡ local.now) }
{
    Ok(CLocal {
        ty: copied_type(alloc, &local.ty)?,
        name: Text::copy_of(alloc, &local.name)?,
    })
}

fn copied_locals(alloc: Global, locals: &[CLocal]) -> Result<List<CLocal>, NoMemory>
    ensures { IfOk result (λ copy. copy ≡ locals.now) }
{
    let mut copy = List::new(alloc);
    for local in locals {
        copy.push(copied_local(alloc, local)?)?;
    }
    Ok(copy)
}

pub fn copied_function(alloc: Global, function: &CFunc) -> Result<CFunc, NoMemory>
    ensures { IfOk result (λ copy. copy ≡ function.now) }
{
    Ok(CFunc {
        place: function.place,
        fixed: function.fixed,
        result: function.result,
        name: Text::copy_of(alloc, &function.name)?,
        params: copied_params(alloc, &function.params)?,
        locals: copied_locals(alloc, &function.locals)?,
        body: block(alloc, &function.body)?,
    })
}

fn copied_member(alloc: Global, member: &CMember) -> Result<CMember, NoMemory>
    ensures { IfOk result (λ copy. copy ≡ member.now) }
{
    Ok(CMember {
        ty: copied_type(alloc, &member.ty)?,
        name: Text::copy_of(alloc, &member.name)?,
        length: member.length,
    })
}

fn copied_members(alloc: Global, members: &[CMember]) -> Result<List<CMember>, NoMemory>
    ensures { IfOk result (λ copy. copy ≡ members.now) }
{
    let mut copy = List::new(alloc);
    for member in members {
        copy.push(copied_member(alloc, member)?)?;
    }
    Ok(copy)
}

fn copied_struct(alloc: Global, of: &CStruct) -> Result<CStruct, NoMemory>
    ensures { IfOk result (λ copy. copy ≡ of.now) }
{
    Ok(CStruct {
        place: of.place,
        name: Text::copy_of(alloc, &of.name)?,
        members: copied_members(alloc, &of.members)?,
    })
}

pub fn copied_structs(alloc: Global, structs: &[CStruct]) -> Result<List<CStruct>, NoMemory>
    ensures { IfOk result (λ copy. copy ≡ structs.now) }
{
    let mut copy = List::new(alloc);
    for of in structs {
        copy.push(copied_struct(alloc, of)?)?;
    }
    Ok(copy)
}
