//! The parts of the units of a program.

ghost use Rattle.std.specs.Prelude.{◌≡◌, [], IfOk, drop, if◌then◌else◌};
ghost use Rattle.bl_tree.specs.Typing as typing;
ghost use Rattle.bl_emit_spec.specs.Programs.{no_parts, parts_of_function, parts_then, where_needed};
ghost use Rattle.bl_emit.specs.Kept.{parts_in};
ghost use Rattle.bl_emit.specs.Programs.{next_told, parts_told, told_of, unit_told, units_told};

use crate::activity::{ActivityInput, Parts, activity_parts};
use bl_block::nodes_of;
use bl_emit_acts::is_activity;
use bl_emit_acts::parts::joined;
use bl_emit_functions::{function, memory};
use bl_emit_tables::sizes_of;
use bl_machine::Activity;
use bl_machine_transitions::rules;
use bl_tree::slices::element;
use bl_tree::tree::{StructDef, Unit};
use bl_tree::{List, NoMemory};
use std::alloc::Global;

/// The parts of an activity of a machine.
fn machine_parts(
    alloc: Global,
    structs: &[StructDef],
    earlier: &[Unit],
    remember: &[bool],
    unit: &Unit,
    one: &Activity,
    needed: bool,
) -> Result<Parts, NoMemory>
    ensures { IfOk result (λ made. parts_in made
        ≡ where_needed needed (parts_told (told_of structs.now earlier.now remember.now unit.now one.now))) }
{
    let order = nodes_of(alloc, &one.blocks)?;
    let rules = rules(alloc, &unit.body, &order, &one.slots)?;
    let sizes = sizes_of(alloc, &one.slots)?;
    let told = ActivityInput {
        structs,
        earlier,
        unit,
        blocks: &one.blocks,
        rules: &rules,
        sizes: &sizes,
        remember,
    };
    activity_parts(alloc, &told, needed)
}

/// The parts of no unit.
pub fn no_units(alloc: Global) -> Parts
    ensures { parts_in result ≡ no_parts }
{
    Parts {
        structs: List::new(alloc),
        funcs: List::new(alloc),
        remember: List::new(alloc),
    }
}

/// The parts of an activity, where the machine has one more.
fn next_parts(
    alloc: Global,
    structs: &[StructDef],
    earlier: &[Unit],
    remember: &[bool],
    unit: &Unit,
    machine: &[Activity],
    needed: bool,
) -> Result<Parts, NoMemory>
    ensures { IfOk result (λ made. parts_in made
        ≡ where_needed needed (next_told structs.now earlier.now remember.now unit.now machine.now)) }
{
    match element(machine, 0) {
        Some(one) => machine_parts(alloc, structs, earlier, remember, unit, one, needed),
        None => Ok(no_units(alloc)),
    }
}

/// The parts of a function.
fn function_parts(
    alloc: Global,
    structs: &[StructDef],
    earlier: &[Unit],
    unit: &Unit,
    needed: bool,
) -> Result<Parts, NoMemory>
    ensures { IfOk result (λ made. parts_in made ≡ where_needed needed (parts_of_function structs.now earlier.now unit.now)) }
{
    let mut made = no_units(alloc);
    made.remember.push(false)?;
    if needed {
        made.structs = memory(alloc, structs, earlier, unit)?;
        made.funcs.push(function(alloc, structs, earlier, unit)?)?;
    }
    Ok(made)
}

/// The parts of a unit, where the machine has these activities from this unit on. Fails only if memory runs out.
pub fn unit_parts(
    alloc: Global,
    structs: &[StructDef],
    earlier: &[Unit],
    remember: &[bool],
    unit: &Unit,
    machine: &[Activity],
    needed: bool,
) -> Result<Parts, NoMemory>
    ensures { IfOk result (λ made. parts_in made
        ≡ where_needed needed (unit_told structs.now earlier.now remember.now unit.now machine.now)) }
{
    if is_activity(unit.kind) {
        next_parts(alloc, structs, earlier, remember, unit, machine, needed)
    } else {
        function_parts(alloc, structs, earlier, unit, needed)
    }
}

/// Some parts, and then others.
pub fn parts_with(first: Parts, rest: Parts) -> Result<Parts, NoMemory>
    ensures { IfOk result (λ made. parts_in made ≡ parts_then (parts_in first) (parts_in rest)) }
{
    Ok(Parts {
        structs: joined(first.structs, rest.structs)?,
        funcs: joined(first.funcs, rest.funcs)?,
        remember: joined(first.remember, rest.remember)?,
    })
}

/// The activities of the machine behind a unit.
pub fn machine_after<'a>(unit: &Unit, machine: &'a [Activity]) -> &'a [Activity]
    ensures { result.now ≡ (if typing.is_activity unit.now.kind then drop 1 machine.now else machine.now) }
{
    if is_activity(unit.kind) && !machine.is_empty() {
        &machine[1..]
    } else {
        machine
    }
}

/// The parts of all units. Fails only if memory runs out.
pub fn all_parts(
    alloc: Global,
    structs: &[StructDef],
    units: &[Unit],
    needed: &[bool],
    machine: &[Activity],
) -> Result<Parts, NoMemory>
    ensures { IfOk result (λ made. parts_in made ≡ units_told structs.now [] [] units.now needed.now machine.now) }
{
    let mut made = no_units(alloc);
    let mut left = machine;
    for k in 0..units.len() {
        if k >= needed.len() {
            return Ok(made);
        }
        let here = unit_parts(
            alloc,
            structs,
            &units[..k],
            &made.remember,
            &units[k],
            left,
            needed[k],
        )?;
        left = machine_after(&units[k], left);
        made = parts_with(made, here)?;
    }
    Ok(made)
}
