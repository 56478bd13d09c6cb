//! How large types and structs are, and how deep they are nested.

ghost use Rattle.std.specs.Prelude.{◌≡◌, map, IfOk};
ghost use Rattle.bl_limits_measures.specs.Saturated.{saturated};
ghost use Rattle.bl_limits_measures.specs.Types.{fields_nesting, fields_size, nesting_by, size_by, struct_nestings, struct_sizes};

use crate::tables::at;
use bl_tree::tree::{StructDef, Ty};
use bl_tree::{List, NoMemory};
use std::alloc::Global;

/// How many scalars a value of the type has, where those of the structs are known.
pub fn size_by(known: &[u64], ty: &Ty) -> u64
    ensures { result ≡ saturated (size_by known.now ty.now) }
{
    match ty {
        Ty::Scalar(_) => 1,
        Ty::Struct(k) => at(known, *k),
        Ty::Array(length, element) => u64::from(*length).saturating_mul(size_by(known, element)),
    }
}

/// How many scalars the fields of the struct have.
fn fields_size(known: &[u64], def: &StructDef) -> u64
    ensures { result ≡ saturated (fields_size known.now def.now) }
{
    let mut size = 0u64;
    for field in def.fields.iter() {
        size = size.saturating_add(size_by(known, &field.ty));
    }
    size
}

/// How many scalars each struct has. Fails only for want of memory.
pub fn struct_sizes(alloc: Global, structs: &[StructDef]) -> Result<List<u64>, NoMemory>
    ensures { IfOk result (λ sizes. sizes ≡ map saturated (struct_sizes structs.now)) }
{
    let mut sizes = List::new(alloc);
    for def in structs {
        let size = fields_size(&sizes, def);
        sizes.push(size)?;
    }
    Ok(sizes)
}

/// How deep the type is nested, where the structs' nesting is known.
pub fn nesting_by(known: &[u64], ty: &Ty) -> u64
    ensures { result ≡ saturated (nesting_by known.now ty.now) }
{
    match ty {
        Ty::Scalar(_) => 0,
        Ty::Struct(k) => at(known, *k),
        Ty::Array(_, element) => nesting_by(known, element).saturating_add(1),
    }
}

/// How deep the struct is nested: one deeper than its fields.
fn fields_nesting(known: &[u64], def: &StructDef) -> u64
    ensures { result ≡ saturated (fields_nesting known.now def.now) }
{
    let mut most = 0u64;
    for field in def.fields.iter() {
        most = most.max(nesting_by(known, &field.ty));
    }
    most.saturating_add(1)
}

/// How deep each struct is nested. Fails only for want of memory.
pub fn struct_nestings(alloc: Global, structs: &[StructDef]) -> Result<List<u64>, NoMemory>
    ensures { IfOk result (λ nestings. nestings ≡ map saturated (struct_nestings structs.now)) }
{
    let mut nestings = List::new(alloc);
    for def in structs {
        let nesting = fields_nesting(&nestings, def);
        nestings.push(nesting)?;
    }
    Ok(nestings)
}
