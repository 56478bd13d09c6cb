//! The C of a program.

ghost use Rattle.std.specs.Prelude.{◌≡◌, ◌++◌, ◌∷◌, [], IfOk, option_map};
ghost use Rattle.bl_emit_spec.specs.Programs.{file_of, init_function, interface_structs, tick_function};
ghost use Rattle.bl_emit_structs.specs.Structs.{structs_of as structs_needed};
ghost use Rattle.bl_emit.specs.Kept.{parts_in, written_in};
ghost use Rattle.bl_emit.specs.Programs.{file_told, written_told};

use crate::activity::Parts;
use crate::chosen::is_set;
use crate::interface::interface;
use crate::shown::shown_units;
use crate::ticks::{init, tick};
use crate::units::all_parts;
use bl_emit_acts::parts::joined;
use bl_emit_structs::structs_of;
use bl_emit_tables::needed_units;
use bl_machine::Machine;
use bl_tree::c::{CFunc, CStruct};
use bl_tree::slices::element;
use bl_tree::tree::Unit;
use bl_tree::{List, NoMemory, Program};
use std::alloc::Global;

/// What is written of a program: structs, and then functions.
#[derive(Drop)]
pub struct Written {
    pub structs: List<CStruct>,
    pub funcs: List<CFunc>,
}

/// The structs of types, those of units, and those of the interface.
fn all_structs(
    alloc: Global,
    program: &Program,
    units: &[Unit],
    structs: List<CStruct>,
    unit: &Unit,
    remembers: bool,
) -> Result<List<CStruct>, NoMemory>
    ensures { IfOk result (λ made. made ≡ structs_needed program.now.structs units.now
        ++ (structs ++ interface_structs program.now.structs unit.now remembers)) }
{
    let first = structs_of(alloc, &program.structs, units)?;
    let last = interface(alloc, &program.structs, unit, remembers)?;
    joined(first, joined(structs, last)?)
}

/// The functions of units, and those of the interface.
fn all_funcs(
    alloc: Global,
    funcs: List<CFunc>,
    unit: &Unit,
    remembers: bool,
) -> Result<List<CFunc>, NoMemory>
    ensures { IfOk result (λ made. made ≡ funcs ++ (init_function ∷ tick_function unit.now remembers ∷ [])) }
{
    let mut made = funcs;
    made.push(init(alloc)?)?;
    made.push(tick(alloc, unit, remembers)?)?;
    Ok(made)
}

/// The file of units with these parts, whose entry has the ports of this unit.
fn file(
    alloc: Global,
    program: &Program,
    units: &[Unit],
    parts: Parts,
    unit: &Unit,
) -> Result<Written, NoMemory>
    ensures { IfOk result (λ made. written_in made
        ≡ file_of program.now.structs units.now program.now.entry (parts_in parts) unit.now) }
{
    let remembers = is_set(&parts.remember, program.entry as usize);
    Ok(Written {
        structs: all_structs(alloc, program, units, parts.structs, unit, remembers)?,
        funcs: all_funcs(alloc, parts.funcs, unit, remembers)?,
    })
}

/// The file of units with these parts, where the entry may be absent.
fn file_where(
    alloc: Global,
    program: &Program,
    units: &[Unit],
    parts: Parts,
    unit: Option<&Unit>,
) -> Result<Written, NoMemory>
    ensures { IfOk result (λ made. written_in made
        ≡ file_told program.now units.now (parts_in parts) (option_map (λ unit. unit.now) unit.entry)) }
{
    match unit {
        Some(unit) => file(alloc, program, units, parts, unit),
        None => Ok(Written {
            structs: List::new(alloc),
            funcs: List::new(alloc),
        }),
    }
}

/// The C of the program of a machine. Fails only if memory runs out.
pub fn emit(alloc: Global, machine: &Machine) -> Result<Written, NoMemory>
    ensures { IfOk result (λ made. written_in made ≡ written_told machine.now.program machine.now.activities) }
{
    let program = machine.program();
    let units = shown_units(alloc, &program.units, program.entry)?;
    let needed = needed_units(alloc, &units, program.entry)?;
    let parts = all_parts(
        alloc,
        &program.structs,
        &units,
        &needed,
        machine.activities(),
    )?;
    file_where(
        alloc,
        program,
        &units,
        parts,
        element(&program.units, program.entry as usize),
    )
}
