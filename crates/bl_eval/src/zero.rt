//! The value of a variable that no initial value is given.

ghost use Rattle.std.specs.Prelude.{◌≡◌, [], IfOk, map, slice_index_or, replicate};
ghost use Rattle.bl_eval.specs.Values.{zero_of, zeros_after};

use crate::copying::copy;
use bl_tree::slices::element;
use bl_tree::tree::{Field, StructDef, Ty};
use bl_tree::{List, NoMemory, Value};
use std::alloc::Global;

/// The value of the type that has 0 or `false` everywhere (docs/LANGUAGE.md, "How a program runs").
#[cycle(zeros)]
pub fn zero_value(alloc: Global, structs: &[StructDef], ty: &Ty) -> Result<Value, NoMemory>
    ensures { IfOk result (λ value. value ≡ zero_of structs.now ty.now) }
{
    match ty {
        Ty::Scalar(_) => Ok(Value::Number(0)),
        Ty::Struct(k) => zero_struct(alloc, structs, *k as usize),
        Ty::Array(n, element) => {
            let element = zero_value(alloc, structs, element)?;
            repeated(alloc, *n, &element)
        }
    }
}

#[cycle(zeros)]
fn zero_struct(alloc: Global, structs: &[StructDef], k: usize) -> Result<Value, NoMemory>
    ensures { IfOk result (λ value. value ≡ slice_index_or (zeros_after [] structs.now) k (Value.Parts [])) }
{
    match element(structs, k) {
        None => Ok(Value::Parts(List::new(alloc))),
        Some(def) => Ok(Value::Parts(zero_fields(alloc, &structs[..k], &def.fields)?)),
    }
}

#[cycle(zeros)]
fn zero_fields(
    alloc: Global,
    structs: &[StructDef],
    fields: &[Field],
) -> Result<List<Value>, NoMemory>
    ensures { IfOk result (λ values. values ≡ map (λ field. zero_of structs.now field.ty) fields.now) }
{
    let mut values = List::new(alloc);
    for field in fields {
        values.push(zero_value(alloc, structs, &field.ty)?)?;
    }
    Ok(values)
}

/// An array of n copies.
fn repeated(alloc: Global, n: u32, element: &Value) -> Result<Value, NoMemory>
    ensures { IfOk result (λ value. value ≡ Value.Parts (replicate n element.now)) }
{
    let mut elements = List::new(alloc);
    for _ in 0..n {
        elements.push(copy(alloc, element)?)?;
    }
    Ok(Value::Parts(elements))
}
