//! The units of which C is written: those before the entry, and the entry with its inputs lent.

ghost use Rattle.std.specs.Prelude.{◌≡◌, ◌++◌, IfOk, OnOk, map, option_map, option_to_list, take, ◌+◌};
ghost use Rattle.bl_emit_spec.specs.Lent as lent;

use bl_peel::copies::{block, ty_of};
use bl_tree::slices::element;
use bl_tree::tree::{Role, Unit, Var};
use bl_tree::{List, NoMemory, Text};
use std::alloc::Global;

// ---- variables

/// The role in C of a parameter of the entry.
fn lent_role(role: Role) -> Role
    ensures { result ≡ lent.lent_role role }
{
    match role {
        Role::Input | Role::Output => Role::Output,
        Role::Variable => Role::Variable,
        Role::Fixed => Role::Fixed,
    }
}

/// A variable of the entry, lent where it is an input.
fn lent_var(alloc: Global, var: &Var) -> Result<Var, NoMemory>
    ensures { IfOk result (λ made. made ≡ lent.lent_var var.now) }
{
    Ok(Var {
        name: Text::copy_of(alloc, var.name.as_str())?,
        place: var.place,
        ty: ty_of(alloc, &var.ty)?,
        role: lent_role(var.role),
    })
}

/// The variables of the entry.
fn lent_vars(alloc: Global, vars: &[Var]) -> Result<List<Var>, NoMemory>
    ensures { IfOk result (λ made. made ≡ map lent.lent_var vars.now) }
{
    let mut made = List::new(alloc);
    for var in vars {
        made.push(lent_var(alloc, var)?)?;
    }
    Ok(made)
}

/// The same variable once more.
fn var_of(alloc: Global, var: &Var) -> Result<Var, NoMemory>
    ensures { IfOk result (λ copy. copy ≡ var.now) }
{
    Ok(Var {
        name: Text::copy_of(alloc, var.name.as_str())?,
        place: var.place,
        ty: ty_of(alloc, &var.ty)?,
        role: var.role,
    })
}

/// The same variables once more.
fn vars_of(alloc: Global, vars: &[Var]) -> Result<List<Var>, NoMemory>
    ensures { IfOk result (λ copies. copies ≡ vars.now) }
{
    let mut copies = List::new(alloc);
    for var in vars {
        copies.push(var_of(alloc, var)?)?;
    }
    Ok(copies)
}

// ---- units

/// The same unit once more.
fn unit_of(alloc: Global, unit: &Unit) -> Result<Unit, NoMemory>
    ensures { IfOk result (λ copy. copy ≡ unit.now) }
{
    Ok(Unit {
        name: Text::copy_of(alloc, unit.name.as_str())?,
        place: unit.place,
        kind: unit.kind,
        vars: vars_of(alloc, &unit.vars)?,
        inputs: unit.inputs,
        outputs: unit.outputs,
        result: unit.result,
        body: block(alloc, &unit.body)?,
    })
}

/// So many parameters. More than fit a number are want of memory.
fn sum(inputs: u32, outputs: u32) -> Result<u32, NoMemory>
    ensures { IfOk result (λ sum. sum ≡ inputs + outputs) }
{
    match inputs.checked_add(outputs) {
        Some(sum) => Ok(sum),
        None => Err(NoMemory),
    }
}

/// The entry with its inputs lent.
fn lent_unit(alloc: Global, unit: &Unit) -> Result<Unit, NoMemory>
    ensures { IfOk result (λ made. made ≡ lent.lent_unit unit.now) }
{
    Ok(Unit {
        name: Text::copy_of(alloc, unit.name.as_str())?,
        place: unit.place,
        kind: unit.kind,
        vars: lent_vars(alloc, &unit.vars)?,
        inputs: 0,
        outputs: sum(unit.inputs, unit.outputs)?,
        result: unit.result,
        body: block(alloc, &unit.body)?,
    })
}

/// The first so many units.
fn first(units: &[Unit], count: usize) -> &[Unit]
    ensures { result.now ≡ take count units.now }
{
    if count <= units.len() {
        &units[..count]
    } else {
        units
    }
}

/// The same units once more.
fn units_of(alloc: Global, units: &[Unit]) -> Result<List<Unit>, NoMemory>
    ensures { IfOk result (λ copies. copies ≡ units.now) }
{
    let mut copies = List::new(alloc);
    for unit in units {
        copies.push(unit_of(alloc, unit)?)?;
    }
    Ok(copies)
}

/// Appends the entry, where there is one.
fn add_entry(alloc: Global, unit: Option<&Unit>, units: &mut List<Unit>) -> Result<(), NoMemory>
    ensures { OnOk result (units.new ≡ units.old ++ option_to_list (option_map lent.lent_unit (option_map (λ unit. unit.now) unit.entry))) }
{
    match unit {
        Some(unit) => {
            units.push(lent_unit(alloc, unit)?)?;
            Ok(())
        }
        None => Ok(()),
    }
}

/// The units up to the entry at this position, with its inputs lent. Fails only if memory runs out.
pub fn shown_units(alloc: Global, units: &[Unit], entry: u32) -> Result<List<Unit>, NoMemory>
    ensures { IfOk result (λ made. made ≡ lent.shown_units units.now entry) }
{
    let mut made = units_of(alloc, first(units, entry as usize))?;
    add_entry(alloc, element(units, entry as usize), &mut made)?;
    Ok(made)
}
