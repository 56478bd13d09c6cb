//! Fields and parameters of a text: names as they are written, types as they are known.

ghost use Rattle.std.specs.Prelude.{◌≡◌, ◌+◌, ◌++◌, IfOk, OnOk, slice_get};
ghost use Rattle.bl_module.specs.Own.{base_of, field_type, fields_known_from, lengths_known, lengths_of, params_known_from, face_type, var_type};

use bl_face::{FaceBase, FaceField, FaceType};
use bl_parse_tree::item::{RawField, RawParam};
use bl_parse_tree::types::RawType;
use bl_tree::tree::{Field, Ty, Var};
use bl_tree::{List, NoMemory, Text};
use std::alloc::Global;

/// The next position.
pub fn following(position: usize) -> Result<usize, NoMemory>
    ensures { IfOk result (λ behind. behind ≡ position + 1) }
{
    match position.checked_add(1) {
        Some(behind) => Ok(behind),
        None => Err(NoMemory),
    }
}

/// The scalar type or the name of the struct in a written type.
fn base_of(alloc: Global, ty: &RawType) -> Result<FaceBase, NoMemory>
    ensures { IfOk result (λ base. base ≡ base_of ty.now) }
{
    match ty {
        RawType::Scalar(of) => Ok(FaceBase::Scalar(*of)),
        RawType::Struct(name) => Ok(FaceBase::Struct(Text::copy_of(alloc, name.text.as_str())?)),
        RawType::Array(_, element) => base_of(alloc, element),
    }
}

/// The lengths of a type go behind those so far.
fn push_lengths(ty: &Ty, lengths: &mut List<u32>) -> Result<(), NoMemory>
    ensures { OnOk result (lengths.new ≡ lengths.old ++ lengths_of ty.now) }
{
    match ty {
        Ty::Array(n, element) => {
            lengths.push(*n)?;
            push_lengths(element, lengths)
        }
        Ty::Scalar(_) | Ty::Struct(_) => Ok(()),
    }
}

fn field_lengths(alloc: Global, known: &[Field], k: usize) -> Result<List<u32>, NoMemory>
    ensures { IfOk result (λ lengths. lengths ≡ lengths_known (field_type (slice_get known.now k))) }
{
    let mut lengths = List::new(alloc);
    if k < known.len() {
        push_lengths(&known[k].ty, &mut lengths)?;
    }
    Ok(lengths)
}

fn var_lengths(alloc: Global, vars: &[Var], k: usize) -> Result<List<u32>, NoMemory>
    ensures { IfOk result (λ lengths. lengths ≡ lengths_known (var_type (slice_get vars.now k))) }
{
    let mut lengths = List::new(alloc);
    if k < vars.len() {
        push_lengths(&vars[k].ty, &mut lengths)?;
    }
    Ok(lengths)
}

/// A field or a parameter.
fn part_of(
    alloc: Global,
    name: &Text,
    written: &RawType,
    lengths: List<u32>,
) -> Result<FaceField, NoMemory>
    ensures { IfOk result (λ made. made ≡ record { name = name.now; ty = record { lengths = lengths; base = base_of written.now } }) }
{
    let name = Text::copy_of(alloc, name.as_str())?;
    let base = base_of(alloc, written)?;
    let ty = FaceType { lengths, base };
    Ok(FaceField { name, ty })
}

/// The fields of a struct, which has the known ones.
pub fn fields_known_from(
    alloc: Global,
    known: &[Field],
    fields: &[RawField],
) -> Result<List<FaceField>, NoMemory>
    ensures { IfOk result (λ made. made ≡ fields_known_from 0 known.now fields.now) }
{
    let mut k = 0;
    let mut made = List::new(alloc);
    for field in fields {
        let lengths = field_lengths(alloc, known, k)?;
        made.push(part_of(alloc, &field.name.text, &field.ty, lengths)?)?;
        k = following(k)?;
    }
    Ok(made)
}

/// The parameters of a unit, of which the first has the position among its variables.
pub fn params_known_from(
    alloc: Global,
    from: usize,
    vars: &[Var],
    params: &[RawParam],
) -> Result<List<FaceField>, NoMemory>
    ensures { IfOk result (λ made. made ≡ params_known_from from vars.now params.now) }
{
    let mut k = from;
    let mut made = List::new(alloc);
    for param in params {
        let lengths = var_lengths(alloc, vars, k)?;
        made.push(part_of(alloc, &param.name.text, &param.ty, lengths)?)?;
        k = following(k)?;
    }
    Ok(made)
}
