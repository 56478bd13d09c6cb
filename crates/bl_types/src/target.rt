//! Steps to fields and elements, and what targets and paths lead to.
#![tactic(auto, using(crate::proofs::NoteLemmas::notes))]

ghost use Rattle.std.specs.Prelude.{◌≡◌, IfOk, OnOk, Some, option_and_then, option_map};
ghost use Rattle.bl_tree.specs.Types.{scalar_in};
ghost use Rattle.bl_types.specs.Expressions.{as_index, constant_found, element_type, no_array, path_found, to_element, to_field};
ghost use Rattle.bl_types.specs.Expressions.{type_of_constant, type_of_variable, value_of_constant, whole_or_unfit};
ghost use Rattle.bl_tree.specs.declared.tree.Part.TheVariants.{Field as ToField, Index as ToElement};
ghost use Rattle.bl_types.specs.Failures.{noted};

use crate::environment::{Constant, Variable};
use crate::failure::Notes;
use crate::form::{Form, Found, Reached, Step};
use crate::settle::{INT32, settle};
use crate::structs::Structs;
use crate::types::{copy_of, scalar_in};
use bl_parse_tree::name::Name;
use bl_tree::tree::{Expr, Part, Path, Ty};
use bl_tree::{NoMemory, Place, Rule};
use std::alloc::Global;

fn field_step(alloc: Global, position: usize, ty: &Ty) -> Result<Step, NoMemory>
    ensures ty { IfOk result (λ step. step.ty ≡ Some ty.now) }
    ensures part { IfOk result (λ step. step.part ≡ Some (ToField position)) }
{
    match u32::try_from(position) {
        Ok(position) => Ok(Step {
            ty: Some(copy_of(alloc, ty)?),
            part: Some(Part::Field(position)),
        }),
        // A position is a 32-bit number, so a struct with more fields is no struct.
        Err(_) => Err(NoMemory),
    }
}

/// Fails at the field's name where what is reached has no such field.
pub fn to_field(
    alloc: Global,
    structs: &Structs,
    name: &Name,
    ty: Option<Ty>,
    notes: &mut Notes,
) -> Result<Step, NoMemory>
    ensures ty { IfOk result (λ step. step.ty ≡ (to_field structs.now name.now ty).ty) }
    ensures part { IfOk result (λ step. step.part ≡ (to_field structs.now name.now ty).part) }
    ensures notes { OnOk result (notes.new ≡ noted notes.old (to_field structs.now name.now ty).failures) }
{
    let Some(ty) = ty else {
        return Ok(Step::lost());
    };
    match structs.field_in(&name.text, &ty) {
        Some(field) => field_step(alloc, field.position, field.ty),
        None => {
            notes.fail(Rule::Type, name.place);
            Ok(Step::lost())
        }
    }
}

/// An expression as an index.
fn as_index(
    alloc: Global,
    at: Place,
    form: Form,
    notes: &mut Notes,
) -> Result<Option<Expr>, NoMemory>
    ensures made { IfOk result (λ made. made ≡ (as_index at form).made) }
    ensures notes { OnOk result (notes.new ≡ noted notes.old (as_index at form).failures) }
{
    match form {
        Form::Failing => Ok(None),
        Form::Open(e) => settle(alloc, INT32, &e, notes),
        Form::Of(ty, e) => Ok(whole(at, &ty, e, notes)),
    }
}

fn whole(at: Place, ty: &Ty, e: Expr, notes: &mut Notes) -> Option<Expr>
    ensures made { result ≡ (whole_or_unfit at (scalar_in ty.now) e).made }
    ensures notes { notes.new ≡ noted notes.old (whole_or_unfit at (scalar_in ty.now) e).failures }
{
    match scalar_in(ty) {
        Some(s) => {
            if s.is_whole() {
                Some(e)
            } else {
                notes.fail(Rule::Type, at);
                None
            }
        }
        None => {
            notes.fail(Rule::Type, at);
            None
        }
    }
}

/// The type of the elements of what has the type, where that is an array.
fn element_type(alloc: Global, ty: &Option<Ty>) -> Result<Option<Ty>, NoMemory>
    ensures { IfOk result (λ element. element ≡ element_type ty.now) }
{
    match ty {
        Some(ty) => match ty {
            Ty::Array(_, element) => Ok(Some(copy_of(alloc, element)?)),
            _ => Ok(None),
        },
        None => Ok(None),
    }
}

/// Fails at the index where what is reached is no array.
fn in_array(at: Place, ty: &Option<Ty>, notes: &mut Notes)
    ensures { notes.new ≡ noted notes.old (no_array at ty.now) }
{
    match ty {
        Some(ty) => match ty {
            Ty::Array(_, _) => {}
            _ => notes.fail(Rule::Type, at),
        },
        None => {}
    }
}

fn index_step(element: Option<Ty>, index: Option<Expr>) -> Step
    ensures ty { result.ty ≡ option_and_then (λ e. element) index }
    ensures part { result.part ≡ option_map ToElement index }
{
    match index {
        Some(e) => Step {
            ty: element,
            part: Some(Part::Index(e)),
        },
        None => Step::lost(),
    }
}

/// A step to an element. Its index is judged whatever is reached.
pub fn to_element(
    alloc: Global,
    at: Place,
    form: Form,
    ty: Option<Ty>,
    notes: &mut Notes,
) -> Result<Step, NoMemory>
    ensures ty { IfOk result (λ step. step.ty ≡ (to_element at form ty).ty) }
    ensures part { IfOk result (λ step. step.part ≡ (to_element at form ty).part) }
    ensures notes { OnOk result (notes.new ≡ noted notes.old (to_element at form ty).failures) }
{
    in_array(at, &ty, notes);
    let element = element_type(alloc, &ty)?;
    let index = as_index(alloc, at, form, notes)?;
    Ok(index_step(element, index))
}

pub fn type_of_variable(alloc: Global, var: Option<&Variable>) -> Result<Option<Ty>, NoMemory>
    ensures { IfOk result (λ ty. ty ≡ type_of_variable (option_map (λ var. var.now) var.entry)) }
{
    match var {
        Some(var) => match &var.ty {
            Some(ty) => Ok(Some(copy_of(alloc, ty)?)),
            None => Ok(None),
        },
        None => Ok(None),
    }
}

pub fn type_of_constant(constant: Option<&Constant>) -> Option<Ty>
    ensures { result ≡ type_of_constant (option_map (λ constant. constant.now) constant.entry) }
{
    match constant {
        Some(constant) => match constant.ty {
            Some(s) => Some(Ty::Scalar(s)),
            None => None,
        },
        None => None,
    }
}

fn value_of(constant: Option<&Constant>) -> i128
    ensures { result ≡ value_of_constant (option_map (λ constant. constant.now) constant.entry) }
{
    match constant {
        Some(constant) => constant.value,
        None => 0,
    }
}

pub fn path_found(at: Place, k: u32, reached: Reached) -> Found
    ensures { result ≡ path_found at k reached.parts reached.ty }
{
    let Reached { ty, parts } = reached;
    match ty {
        Some(ty) => Found::Place(Path {
            place: at,
            root: k,
            parts,
            ty,
        }),
        None => Found::Nothing,
    }
}

pub fn constant_found(constant: Option<&Constant>, reached: Reached) -> Found
    ensures { result ≡ constant_found (value_of_constant (option_map (λ constant. constant.now) constant.entry)) (option_and_then scalar_in reached.ty) }
{
    match &reached.ty {
        Some(ty) => match scalar_in(ty) {
            Some(s) => Found::Constant(s, value_of(constant)),
            None => Found::Nothing,
        },
        None => Found::Nothing,
    }
}
