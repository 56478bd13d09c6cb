//! Columns of a unit's inputs and outputs.

ghost use Rattle.std.specs.Prelude.{◌≡◌, drop, take, unwrap_or, IfOk};
ghost use Rattle.bl_tree.specs.Ports.{column_of, column_type, columns_of, input_columns, output_columns};
ghost use Rattle.bl_tree.specs.Types.{scalar_in};
ghost use Rattle.bl_tree.specs.declared.scalar.Scalar.TheVariants.{Bool as OfBool};

use bl_tree::row::Column;
use bl_tree::tree::{Ty, Unit, Var};
use bl_tree::{List, NoMemory, Scalar, Text};
use std::alloc::Global;

/// The columns of a unit's inputs, in order. Fails only for want of memory.
pub fn input_columns(alloc: Global, unit: &Unit) -> Result<List<Column>, NoMemory>
    ensures { IfOk result (λ columns. columns ≡ input_columns unit.now) }
{
    columns_within(alloc, &unit.vars, 0, unit.inputs as usize)
}

/// The columns of its outputs.
pub fn output_columns(alloc: Global, unit: &Unit) -> Result<List<Column>, NoMemory>
    ensures { IfOk result (λ columns. columns ≡ output_columns unit.now) }
{
    columns_within(
        alloc,
        &unit.vars,
        unit.inputs as usize,
        unit.outputs as usize,
    )
}

// Those of so many variables from the first on.
fn columns_within(
    alloc: Global,
    vars: &[Var],
    first: usize,
    count: usize,
) -> Result<List<Column>, NoMemory>
    ensures { IfOk result (λ columns. columns ≡ columns_of (take count (drop first vars.now))) }
{
    let begin = first.min(vars.len());
    let end = begin + count.min(vars.len() - begin);
    columns_of(alloc, &vars[begin..end])
}

fn columns_of(alloc: Global, vars: &[Var]) -> Result<List<Column>, NoMemory>
    ensures { IfOk result (λ columns. columns ≡ columns_of vars.now) }
{
    let mut columns = List::new(alloc);
    'vars: for var in vars {
        columns.push(column_of(alloc, var)?)?;
    }
    Ok(columns)
}

fn column_of(alloc: Global, var: &Var) -> Result<Column, NoMemory>
    ensures { IfOk result (λ column. column ≡ column_of var.now) }
{
    Ok(Column {
        name: Text::copy_of(alloc, var.name.as_str())?,
        ty: column_type(scalar_of(&var.ty)),
    })
}

fn scalar_of(ty: &Ty) -> Scalar
    ensures { result ≡ unwrap_or (scalar_in ty.now) OfBool }
{
    match ty {
        Ty::Scalar(scalar) => *scalar,
        _ => Scalar::Bool,
    }
}

// The numbers of bits are those of the natural number of their width.
fn column_type(scalar: Scalar) -> Scalar
    ensures { result ≡ column_type scalar }
{
    match scalar {
        Scalar::Bits(width) => Scalar::Nat(width),
        other => other,
    }
}
