//! Types: as they are written, copied and compared.
#![tactic(auto, using(crate::proofs::NoteLemmas::notes))]

ghost use Rattle.std.specs.Prelude.{◌≡◌, IfOk, OnOk};
ghost use Rattle.bl_tree.specs.Types.{same_scalar, same_type, scalar_in};
ghost use Rattle.bl_types.specs.Failures.{noted};
ghost use Rattle.bl_types.specs.Written.{as_length, bad_length, bad_lengths, constant_length, or_zero, place_of_length, written_length, written_type};

use crate::environment::Constant;
use crate::failure::Notes;
use bl_names_tree::types::{NamedLength, NamedType};
use bl_tree::slices::element;
use bl_tree::tree::Ty;
use bl_tree::{Box, NoMemory, Place, Rule, Scalar};
use std::alloc::Global;

/// How many elements an array can have.
const MOST_ELEMENTS: u128 = 65_536;

pub fn scalar_in(ty: &Ty) -> Option<Scalar>
    ensures { result ≡ scalar_in ty.now }
{
    match ty {
        Ty::Scalar(s) => Some(*s),
        _ => None,
    }
}

pub fn same_scalar(a: Scalar, b: Scalar) -> bool
    ensures { result ≡ same_scalar a b }
{
    match a {
        Scalar::Bool => matches!(b, Scalar::Bool),
        Scalar::Int(v) => match b {
            Scalar::Int(w) => v.bits() == w.bits(),
            _ => false,
        },
        Scalar::Nat(v) => match b {
            Scalar::Nat(w) => v.bits() == w.bits(),
            _ => false,
        },
        Scalar::Bits(v) => match b {
            Scalar::Bits(w) => v.bits() == w.bits(),
            _ => false,
        },
    }
}

/// Structs are one by their position, arrays by length and element.
pub fn same_type(a: &Ty, b: &Ty) -> bool
    ensures { result ≡ same_type a.now b.now }
{
    match a {
        Ty::Scalar(s) => match b {
            Ty::Scalar(t) => same_scalar(*s, *t),
            _ => false,
        },
        Ty::Struct(k) => match b {
            Ty::Struct(m) => *k == *m,
            _ => false,
        },
        Ty::Array(n, element) => match b {
            Ty::Array(m, inner) => *n == *m && same_type(element, inner),
            _ => false,
        },
    }
}

pub fn copy_of(alloc: Global, ty: &Ty) -> Result<Ty, NoMemory>
    ensures { IfOk result (λ copy. copy ≡ ty.now) }
{
    match ty {
        Ty::Scalar(s) => Ok(Ty::Scalar(*s)),
        Ty::Struct(k) => Ok(Ty::Struct(*k)),
        Ty::Array(n, element) => {
            let element = copy_of(alloc, element)?;
            Ok(Ty::Array(*n, Box::new(alloc, element)?))
        }
    }
}

fn as_length(n: u128) -> Option<u32>
    ensures { result ≡ as_length n }
{
    if 1 <= n && n <= MOST_ELEMENTS {
        Some(n as u32)
    } else {
        None
    }
}

fn constant_length(constant: Constant) -> Option<u32>
    ensures { result ≡ constant_length constant }
{
    match constant.ty {
        Some(s) => {
            if s.is_whole() && constant.value >= 0 {
                as_length(constant.value as u128)
            } else {
                None
            }
        }
        None => None,
    }
}

fn length(constants: &[Constant], n: &NamedLength) -> Option<u32>
    ensures { result ≡ written_length constants.now n.now }
{
    match n {
        NamedLength::Number(n) => as_length(n.value),
        NamedLength::Constant(_, k) => match element(constants, *k as usize) {
            Some(constant) => constant_length(*constant),
            None => None,
        },
    }
}

fn place_of(n: &NamedLength) -> Place
    ensures { result ≡ place_of_length n.now }
{
    match n {
        NamedLength::Number(n) => n.place,
        NamedLength::Constant(place, _) => *place,
    }
}

/// The type that is written. A length that fails stands as 0.
pub fn typed(
    alloc: Global,
    constants: &[Constant],
    written: &NamedType,
    notes: &mut Notes,
) -> Result<Ty, NoMemory>
    ensures ty { IfOk result (λ ty. ty ≡ written_type constants.now written.now) }
    ensures notes { OnOk result (notes.new ≡ noted notes.old (bad_lengths constants.now written.now)) }
{
    match written {
        NamedType::Scalar(s) => Ok(Ty::Scalar(*s)),
        NamedType::Struct(k) => Ok(Ty::Struct(*k)),
        NamedType::Array(n, element) => {
            let count = counted(constants, n, notes);
            let element = typed(alloc, constants, element, notes)?;
            Ok(Ty::Array(count, Box::new(alloc, element)?))
        }
    }
}

fn counted(constants: &[Constant], n: &NamedLength, notes: &mut Notes) -> u32
    ensures count { result ≡ or_zero (written_length constants.now n.now) }
    ensures notes { notes.new ≡ noted notes.old (bad_length (place_of_length n.now) (written_length constants.now n.now)) }
{
    match length(constants, n) {
        Some(count) => count,
        None => {
            notes.fail(Rule::Constant, place_of(n));
            0
        }
    }
}
