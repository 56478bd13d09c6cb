//! Copies of structs and of units, some of them with other bodies.

ghost use Rattle.std.specs.Prelude.{◌≡◌, ◌≤◌, IfOk, Some, length};
ghost use Rattle.bl_cause_trees.specs.inner.Judging.{with_bodies, with_body};

use bl_peel::copies::{block, ty_of};
use bl_tree::tree::{Field, Stmt, StructDef, Unit, Var};
use bl_tree::{List, NoMemory, Text};
use std::alloc::Global;

fn field(alloc: Global, field: &Field) -> Result<Field, NoMemory>
    ensures { IfOk result (λ copy. copy ≡ field.now) }
{
    Ok(Field {
        name: Text::copy_of(alloc, &field.name)?,
        ty: ty_of(alloc, &field.ty)?,
    })
}

fn fields(alloc: Global, all: &[Field]) -> Result<List<Field>, NoMemory>
    ensures { IfOk result (λ copies. copies ≡ all.now) }
{
    let mut copies = List::new(alloc);
    for one in all {
        copies.push(field(alloc, one)?)?;
    }
    Ok(copies)
}

fn struct_def(alloc: Global, def: &StructDef) -> Result<StructDef, NoMemory>
    ensures { IfOk result (λ copy. copy ≡ def.now) }
{
    Ok(StructDef {
        name: Text::copy_of(alloc, &def.name)?,
        place: def.place,
        fields: fields(alloc, &def.fields)?,
    })
}

/// The same structs once more. Fails only if memory runs out.
pub fn structs(alloc: Global, all: &[StructDef]) -> Result<List<StructDef>, NoMemory>
    ensures { IfOk result (λ copies. copies ≡ all.now) }
{
    let mut copies = List::new(alloc);
    for def in all {
        copies.push(struct_def(alloc, def)?)?;
    }
    Ok(copies)
}

fn var(alloc: Global, var: &Var) -> Result<Var, NoMemory>
    ensures { IfOk result (λ copy. copy ≡ var.now) }
{
    Ok(Var {
        name: Text::copy_of(alloc, &var.name)?,
        place: var.place,
        ty: ty_of(alloc, &var.ty)?,
        role: var.role,
    })
}

fn vars(alloc: Global, all: &[Var]) -> Result<List<Var>, NoMemory>
    ensures { IfOk result (λ copies. copies ≡ all.now) }
{
    let mut copies = List::new(alloc);
    for one in all {
        copies.push(var(alloc, one)?)?;
    }
    Ok(copies)
}

/// The unit once more, with the body if there is one, and else with its own.
fn unit_with(alloc: Global, unit: &Unit, body: Option<List<Stmt>>) -> Result<Unit, NoMemory>
    ensures { IfOk result (λ copy. copy ≡ with_body unit.now body) }
{
    match body {
        Some(body) => around(alloc, unit, body),
        None => around(alloc, unit, block(alloc, &unit.body)?),
    }
}

/// The unit once more, with another body.
fn around(alloc: Global, unit: &Unit, body: List<Stmt>) -> Result<Unit, NoMemory>
    ensures { IfOk result (λ copy. copy ≡ with_body unit.now (Some body)) }
{
    Ok(Unit {
        name: Text::copy_of(alloc, &unit.name)?,
        place: unit.place,
        kind: unit.kind,
        vars: vars(alloc, &unit.vars)?,
        inputs: unit.inputs,
        outputs: unit.outputs,
        result: unit.result,
        body,
    })
}

/// The units once more, each with its body if there is one, and else with its own. Fails only if memory runs out.
pub fn units_with(
    alloc: Global,
    units: &[Unit],
    bodies: List<Option<List<Stmt>>>,
) -> Result<List<Unit>, NoMemory>
    requires { length bodies ≤ length units.now }
    ensures { IfOk result (λ copies. copies ≡ with_bodies units.now bodies) }
{
    let mut copies = List::new(alloc);
    for body in bodies.into_vec() {
        let unit = &units[copies.len()];
        copies.push(unit_with(alloc, unit, body)?)?;
    }
    Ok(copies)
}
