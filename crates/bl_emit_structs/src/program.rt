//! The structs that types need.
#![tactic(auto, using(crate::proofs::Steps::steps))]

ghost use Rattle.std.specs.Prelude.{◌≡◌, IfOk, OnOk, map};
ghost use Rattle.bl_tree.specs.Reduce.{joined};
ghost use Rattle.bl_emit_structs.specs.Structs.{arrays_of, structs_for_definition, structs_for_unit, structs_of as needed};
ghost use Rattle.bl_emit_structs.specs.inner.Added.{all_added};

use crate::collected::Collected;
use bl_emit_acts::{array, definition};
use bl_tree::c::CStruct;
use bl_tree::tree::{Field, StructDef, Ty, Unit, Var};
use bl_tree::{List, NoMemory};
use std::alloc::Global;

/// The structs of a type's arrays, the innermost first.
fn add_arrays(
    alloc: Global,
    structs: &[StructDef],
    ty: &Ty,
    collected: &mut Collected,
) -> Result<(), NoMemory>
    ensures { OnOk result (collected.new ≡ all_added collected.old (arrays_of structs.now ty.now)) }
{
    match ty {
        Ty::Scalar(_) | Ty::Struct(_) => Ok(()),
        Ty::Array(n, element) => {
            add_arrays(alloc, structs, element, collected)?;
            collected.add(alloc, array(alloc, structs, *n, element)?)
        }
    }
}

fn add_fields(
    alloc: Global,
    structs: &[StructDef],
    fields: &[Field],
    collected: &mut Collected,
) -> Result<(), NoMemory>
    ensures { OnOk result (collected.new ≡ all_added collected.old (joined (map (λ field. arrays_of structs.now field.ty) fields.now))) }
{
    for field in fields {
        add_arrays(alloc, structs, &field.ty, collected)?;
    }
    Ok(())
}

fn add_definition(
    alloc: Global,
    structs: &[StructDef],
    def: &StructDef,
    collected: &mut Collected,
) -> Result<(), NoMemory>
    ensures { OnOk result (collected.new ≡ all_added collected.old (structs_for_definition structs.now def.now)) }
{
    add_fields(alloc, structs, &def.fields, collected)?;
    collected.add(alloc, definition(alloc, structs, def)?)
}

fn add_definitions(
    alloc: Global,
    structs: &[StructDef],
    collected: &mut Collected,
) -> Result<(), NoMemory>
    ensures { OnOk result (collected.new ≡ all_added collected.old (joined (map (structs_for_definition structs.now) structs.now))) }
{
    for def in structs {
        add_definition(alloc, structs, def, collected)?;
    }
    Ok(())
}

fn add_variables(
    alloc: Global,
    structs: &[StructDef],
    vars: &[Var],
    collected: &mut Collected,
) -> Result<(), NoMemory>
    ensures { OnOk result (collected.new ≡ all_added collected.old (joined (map (λ var. arrays_of structs.now var.ty) vars.now))) }
{
    for var in vars {
        add_arrays(alloc, structs, &var.ty, collected)?;
    }
    Ok(())
}

fn add_units(
    alloc: Global,
    structs: &[StructDef],
    units: &[Unit],
    collected: &mut Collected,
) -> Result<(), NoMemory>
    ensures { OnOk result (collected.new ≡ all_added collected.old (joined (map (structs_for_unit structs.now) units.now))) }
{
    for unit in units {
        add_variables(alloc, structs, &unit.vars, collected)?;
    }
    Ok(())
}

/// The C structs that the types of structs and units need, in an order in which a text may declare them. Fails only for want
/// of memory.
pub fn structs_of(
    alloc: Global,
    structs: &[StructDef],
    units: &[Unit],
) -> Result<List<CStruct>, NoMemory>
    ensures { IfOk result (λ made. made ≡ needed structs.now units.now) }
{
    let mut collected = Collected::new(alloc);
    add_definitions(alloc, structs, &mut collected)?;
    add_units(alloc, structs, units, &mut collected)?;
    Ok(collected.into_structs())
}
