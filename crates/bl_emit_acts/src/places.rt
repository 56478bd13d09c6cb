//! Where the variables of a unit stand.

ghost use Rattle.std.specs.Prelude.{◌≡◌, ◌∷◌, codes, IfOk, Some, option_map, slice_get};
ghost use Rattle.bl_tree.specs.declared.tree.Ty.{out-Ty};
ghost use Rattle.bl_tree.specs.Typing as typing;
ghost use Rattle.bl_emit_acts.specs.Expressions.{array_element_type, field_at, field_of_struct, length_at, scalar_at, type_at};
ghost use Rattle.bl_emit_acts.specs.Places as homes;
ghost use Rattle.bl_emit_acts.specs.Sites.{site_in};
ghost use Rattle.bl_emit_acts.specs.Trees.{c_place, c_step};

use crate::home::Home;
use crate::parts::{joined, named, single, step, target};
use crate::site::UnitSite;
use crate::types::scalar_in;
use bl_tree::c::{CPlace, CStep};
use bl_tree::slices::element;
use bl_tree::tree::{Field, Role, StructDef, Ty, UnitKind, Var};
use bl_tree::{List, NoMemory, Scalar, Text};
use std::alloc::Global;

/// Whether units of the kind are activities.
pub fn is_activity(kind: UnitKind) -> bool
    ensures { result ≡ typing.is_activity kind }
{
    match kind {
        UnitKind::Function => false,
        UnitKind::Activity => true,
    }
}

fn home_of_input(scalar: bool, copies: bool) -> Home
    ensures { result ≡ homes.home_of_input scalar copies }
{
    if scalar {
        Home::Local
    } else if copies {
        Home::Held
    } else {
        Home::Lent
    }
}

fn home_of_declared(alone: bool) -> Home
    ensures { result ≡ homes.home_of_declared alone }
{
    if alone { Home::Local } else { Home::Held }
}

fn home_of_role(alone: bool, role: Role, scalar: bool, copies: bool) -> Home
    ensures { result ≡ homes.home_of_role alone role scalar copies }
{
    match role {
        Role::Input => home_of_input(scalar, copies),
        Role::Output => Home::Lent,
        Role::Variable | Role::Fixed => home_of_declared(alone),
    }
}

/// Whether the unit of the site copies its aggregate inputs.
fn copies_inputs(site: &UnitSite) -> bool
    ensures { result ≡ homes.copies_inputs (site_in site.entry.now) }
{
    !is_activity(site.kind) && site.result.is_some()
}

/// Whether a declared variable of a type is a local by itself: a scalar of a function is.
pub fn is_alone(site: &UnitSite, ty: &Ty) -> bool
    ensures { result ≡ homes.is_alone (site_in site.entry.now) ty.now }
{
    !is_activity(site.kind) && scalar_in(ty).is_some()
}

/// Where a variable of the unit stands.
pub fn home_of_var(site: &UnitSite, var: &Var) -> Home
    ensures { result ≡ homes.home_of (site_in site.entry.now) (Some var.now) }
{
    let scalar = scalar_in(&var.ty).is_some();
    home_of_role(
        is_alone(site, &var.ty),
        var.role,
        scalar,
        copies_inputs(site),
    )
}

/// Where the variable at a position stands.
fn home(site: &UnitSite, k: u32) -> Home
    ensures { result ≡ homes.home_of (site_in site.entry.now) (typing.var_at (site_in site.entry.now) k) }
{
    match element(site.vars, k as usize) {
        Some(var) => home_of_var(site, var),
        None => Home::Held,
    }
}

/// The place to which the steps lead from the variable at a position.
pub fn variable(
    alloc: Global,
    site: &UnitSite,
    k: u32,
    steps: List<CStep>,
) -> Result<CPlace, NoMemory>
    ensures { IfOk result (λ place. place ≡ homes.place_in (site_in site.entry.now) k steps) }
{
    let name = named(alloc, "v", site.vars, k as usize)?;
    match home(site, k) {
        Home::Held => held(alloc, is_activity(site.kind), name, steps),
        Home::Local => Ok(target(false, name, steps)),
        Home::Lent => Ok(target(true, name, steps)),
    }
}

/// A member of the struct `m`, or of what the pointer `m` leads to.
fn held(alloc: Global, through: bool, name: Text, steps: List<CStep>) -> Result<CPlace, NoMemory>
    ensures { IfOk result (λ place. place ≡ c_place through (codes "m") (c_step name ∷ steps)) }
{
    let all = joined(single(alloc, step(name))?, steps)?;
    Ok(target(through, Text::copy_of(alloc, "m")?, all))
}

/// The type of the variable at a position, where there is one.
pub fn type_of_variable<'a>(site: &UnitSite<'a>, k: u32) -> Option<&'a Ty>
    ensures { option_map (λ ty. ty.now) result ≡ type_at (typing.var_at (site_in site.entry.now) k) }
{
    match element(site.vars, k as usize) {
        Some(var) => Some(&var.ty),
        None => None,
    }
}

/// The type of the variable at a position; bool where it has parts or isn't there.
pub fn scalar_of_variable(vars: &[Var], k: u32) -> Scalar
    ensures { result ≡ scalar_at (slice_get vars.now k) }
{
    match element(vars, k as usize) {
        Some(var) => scalar_in(&var.ty).unwrap_or(Scalar::Bool),
        None => Scalar::Bool,
    }
}

/// The field at a position of a type, where that is a struct that has it.
fn field_within<'a>(structs: &'a [StructDef], k: u32, ty: &Ty) -> Option<&'a Field>
    ensures { option_map (λ field. field.now) result ≡ field_of_struct structs.now k (out-Ty ty.now) }
{
    match ty {
        Ty::Struct(s) => match element(structs, *s as usize) {
            Some(def) => element(&def.fields, k as usize),
            None => None,
        },
        Ty::Scalar(_) | Ty::Array(_, _) => None,
    }
}

/// The same of a type that may be known.
pub fn field<'a>(structs: &'a [StructDef], k: u32, ty: Option<&Ty>) -> Option<&'a Field>
    ensures { option_map (λ field. field.now) result ≡ field_at structs.now k (option_map (λ ty. ty.now) ty.entry) }
{
    match ty {
        Some(ty) => field_within(structs, k, ty),
        None => None,
    }
}

/// How many elements an array of the type has.
pub fn length(ty: Option<&Ty>) -> u32
    ensures { result ≡ length_at (option_map (λ ty. ty.now) ty.entry) }
{
    match ty {
        Some(Ty::Array(n, _)) => *n,
        _ => 0,
    }
}

/// The type of an array's elements.
pub fn element_type(ty: Option<&Ty>) -> Option<&Ty>
    ensures { option_map (λ ty. ty.now) result ≡ array_element_type (option_map (λ ty. ty.now) ty.entry) }
{
    match ty {
        Some(Ty::Array(_, element)) => Some(element),
        _ => None,
    }
}
