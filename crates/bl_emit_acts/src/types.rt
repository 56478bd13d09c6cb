//! The C types of types, and their names.

ghost use Rattle.std.specs.Prelude.{◌≡◌, ◌++◌, IfOk, OnOk, string_bytes};
ghost use Rattle.bl_tree.specs.Scalar as scalars;
ghost use Rattle.bl_tree.specs.Types as types;
ghost use Rattle.bl_emit_acts.specs.Types.{array_name, c_scalar, c_type as type_in_c, definition_name, type_name, type_word};

use bl_tree::c::CType;
use bl_tree::slices::element;
use bl_tree::tree::{StructDef, Ty};
use bl_tree::{NoMemory, Scalar, Text, Width};
use itoa::Buffer;
use std::alloc::Global;

/// The scalar that a type is.
pub fn scalar_in(ty: &Ty) -> Option<Scalar>
    ensures { result ≡ types.scalar_in ty.now }
{
    match ty {
        Ty::Scalar(s) => Some(*s),
        Ty::Struct(_) | Ty::Array(_, _) => None,
    }
}

pub fn is_int(s: Scalar) -> bool
    ensures { result ≡ scalars.is_int s }
{
    matches!(s, Scalar::Int(_))
}

/// The type that a scalar has in C.
pub fn scalar_in_c(s: Scalar) -> Scalar
    ensures { result ≡ c_scalar s }
{
    match s {
        Scalar::Bits(width) => Scalar::Nat(width),
        _ => s,
    }
}

/// The last word of the names that the prelude has for functions of a type.
pub fn word_of(s: Scalar) -> &'static str
    ensures { result.now ≡ type_word s }
{
    match s {
        Scalar::Bool => "bool",
        Scalar::Int(Width::W8) => "i8",
        Scalar::Int(Width::W16) => "i16",
        Scalar::Int(Width::W32) => "i32",
        Scalar::Int(Width::W64) => "i64",
        Scalar::Nat(Width::W8) => "n8",
        Scalar::Nat(Width::W16) => "n16",
        Scalar::Nat(Width::W32) => "n32",
        Scalar::Nat(Width::W64) => "n64",
        Scalar::Bits(Width::W8) => "b8",
        Scalar::Bits(Width::W16) => "b16",
        Scalar::Bits(Width::W32) => "b32",
        Scalar::Bits(Width::W64) => "b64",
    }
}

fn name_at(structs: &[StructDef], k: usize) -> &str
    ensures { result.now ≡ definition_name structs.now k }
{
    match element(structs, k) {
        Some(def) => def.name.as_str(),
        None => "",
    }
}

/// Writes the name of a type behind a text.
fn write_name(text: &mut String, structs: &[StructDef], ty: &Ty) -> Result<(), NoMemory>
    ensures { OnOk result (string_bytes text.new ≡ string_bytes text.old ++ type_name structs.now ty.now) }
{
    match ty {
        Ty::Scalar(s) => {
            text.push_str(word_of(*s))?;
            Ok(())
        }
        Ty::Struct(k) => {
            text.push_str("s_")?;
            text.push_str(name_at(structs, *k as usize))?;
            Ok(())
        }
        Ty::Array(n, element) => {
            let mut buffer = Buffer::new();
            text.push_str("r")?;
            text.push_str(buffer.format(*n))?;
            text.push_str("_")?;
            write_name(text, structs, element)
        }
    }
}

/// The name of the C struct of a struct or an array. Fails only for want of memory.
pub fn name_of_type(alloc: Global, structs: &[StructDef], ty: &Ty) -> Result<Text, NoMemory>
    ensures { IfOk result (λ name. name ≡ type_name structs.now ty.now) }
{
    let mut name = String::new(alloc);
    write_name(&mut name, structs, ty)?;
    Ok(Text::from_string(name))
}

/// The name of the C struct of an array of so many elements of a type. Fails only for want of memory.
pub fn name_of_array(
    alloc: Global,
    structs: &[StructDef],
    n: u32,
    element: &Ty,
) -> Result<Text, NoMemory>
    ensures { IfOk result (λ name. name ≡ array_name n (type_name structs.now element.now)) }
{
    let mut buffer = Buffer::new();
    let mut name = String::from_str(alloc, "r")?;
    name.push_str(buffer.format(n))?;
    name.push_str("_")?;
    write_name(&mut name, structs, element)?;
    Ok(Text::from_string(name))
}

/// The C type of a type: a struct for each struct and each array. Fails only for want of memory.
pub fn c_type(alloc: Global, structs: &[StructDef], ty: &Ty) -> Result<CType, NoMemory>
    ensures { IfOk result (λ made. made ≡ type_in_c structs.now ty.now) }
{
    match ty {
        Ty::Scalar(s) => Ok(CType::Scalar(scalar_in_c(*s))),
        Ty::Struct(_) | Ty::Array(_, _) => Ok(CType::Struct(name_of_type(alloc, structs, ty)?)),
    }
}
