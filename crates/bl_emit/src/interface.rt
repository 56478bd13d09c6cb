//! The interface of a program: its structs, and the functions that begin it and take one tick.

ghost use Rattle.std.specs.Prelude.{◌≡◌, ◌++◌, IfOk, OnOk, map};
ghost use Rattle.bl_tree.specs.Typing.{inputs_of, outputs_of};
ghost use Rattle.bl_emit_spec.specs.Programs as programs;
ghost use Rattle.bl_emit.specs.inner.Members.{pad_member};

use crate::parts::member;
use bl_emit_acts::c_type;
use bl_emit_acts::parts::{NOWHERE, prefixed, single};
use bl_tree::c::{CMember, CStruct, CType};
use bl_tree::tree::{StructDef, Unit, Var};
use bl_tree::{List, NoMemory, Scalar, Text, Width};
use std::alloc::Global;

// ---- structs

/// The member for an input or an output of the entry.
fn port(alloc: Global, structs: &[StructDef], prefix: &str, var: &Var) -> Result<CMember, NoMemory>
    ensures { IfOk result (λ made. made ≡ programs.port_member structs.now prefix.now var.now) }
{
    let ty = c_type(alloc, structs, &var.ty)?;
    let name = prefixed(alloc, prefix, var.name.as_str())?;
    Ok(CMember {
        ty,
        name,
        length: None,
    })
}

/// A member without use, so that no struct is empty.
fn pad(alloc: Global) -> Result<CMember, NoMemory>
    ensures { IfOk result (λ made. made ≡ pad_member) }
{
    let name = Text::copy_of(alloc, "pad")?;
    Ok(CMember {
        ty: CType::Scalar(Scalar::Nat(Width::W8)),
        name,
        length: None,
    })
}

/// Appends the members for the inputs or outputs.
fn add_ports(
    alloc: Global,
    structs: &[StructDef],
    prefix: &str,
    vars: &[Var],
    members: &mut List<CMember>,
) -> Result<(), NoMemory>
    ensures { OnOk result (members.new ≡ members.old ++ map (programs.port_member structs.now prefix.now) vars.now) }
{
    for var in vars {
        members.push(port(alloc, structs, prefix, var)?)?;
    }
    Ok(())
}

/// The struct of the inputs or outputs.
fn ports(
    alloc: Global,
    structs: &[StructDef],
    name: &str,
    prefix: &str,
    vars: &[Var],
) -> Result<CStruct, NoMemory>
    ensures { IfOk result (λ made. made ≡ programs.port_struct structs.now name.now prefix.now vars.now) }
{
    let mut members = single(alloc, pad(alloc)?)?;
    add_ports(alloc, structs, prefix, vars, &mut members)?;
    Ok(CStruct {
        place: NOWHERE,
        name: Text::copy_of(alloc, name)?,
        members,
    })
}

/// Where the entry rests, and what it remembers.
fn state_members(alloc: Global, name: &str, remembers: bool) -> Result<List<CMember>, NoMemory>
    ensures { IfOk result (λ made. made ≡ (programs.state_struct name.now remembers).members) }
{
    let mut members = List::new(alloc);
    let of = prefixed(alloc, "f_", name)?;
    members.push(member(Text::copy_of(alloc, "f")?, of))?;
    if remembers {
        let of = prefixed(alloc, "m_", name)?;
        members.push(member(Text::copy_of(alloc, "m")?, of))?;
    }
    Ok(members)
}

/// The struct of what a program keeps from tick to tick.
fn state(alloc: Global, name: &str, remembers: bool) -> Result<CStruct, NoMemory>
    ensures { IfOk result (λ made. made ≡ programs.state_struct name.now remembers) }
{
    let members = state_members(alloc, name, remembers)?;
    Ok(CStruct {
        place: NOWHERE,
        name: Text::copy_of(alloc, "bl_state")?,
        members,
    })
}

/// The inputs of a unit.
pub fn inputs(unit: &Unit) -> &[Var]
    ensures { result.now ≡ inputs_of unit.now }
{
    let count = unit.inputs as usize;
    if count <= unit.vars.len() {
        &unit.vars[..count]
    } else {
        &unit.vars
    }
}

/// Its outputs.
pub fn outputs(unit: &Unit) -> &[Var]
    ensures { result.now ≡ outputs_of unit.now }
{
    let start = unit.inputs as usize;
    let count = unit.outputs as usize;
    if start <= unit.vars.len() {
        let rest = &unit.vars[start..];
        if count <= rest.len() {
            &rest[..count]
        } else {
            rest
        }
    } else {
        &unit.vars[unit.vars.len()..]
    }
}

/// The structs of the interface. Fails only if memory runs out.
pub fn interface(
    alloc: Global,
    structs: &[StructDef],
    unit: &Unit,
    remembers: bool,
) -> Result<List<CStruct>, NoMemory>
    ensures { IfOk result (λ made. made ≡ programs.interface_structs structs.now unit.now remembers) }
{
    let mut made = List::new(alloc);
    made.push(state(alloc, unit.name.as_str(), remembers)?)?;
    made.push(ports(alloc, structs, "bl_in", "i_", inputs(unit))?)?;
    made.push(ports(alloc, structs, "bl_out", "o_", outputs(unit))?)?;
    Ok(made)
}
