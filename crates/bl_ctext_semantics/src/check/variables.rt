//! The parameters and locals of a function.
#![tactic(auto, using(crate::proofs::VariableLemmas::variables))]

ghost use Rattle.std.specs.Prelude.{◌≡◌, ◌&&◌, ◌||◌, ◌++◌, IfOk, List, map, OnOk, ℕ};
ghost use Rattle.std.specs.List.{list_all};
ghost use Rattle.std.specs.Option.{option_or};
ghost use Rattle.bl_ctext_semantics.specs.inner.Checked.{checked_structs, variables_in_map};
ghost use Rattle.bl_ctext_semantics.specs.Faults.{is_declared as is_c_declared, is_scalar as is_c_scalar, local_variable, names_table, param_variable};
ghost use Rattle.bl_ctext_semantics.specs.Faults.{parameters_and_locals, variable_names};
ghost use Rattle.bl_ctext_semantics.specs.inner.Maps.{bytes_of, text_at};
ghost use Rattle.bl_ctext_semantics.specs.Tables.{found, table_of};

use crate::check::context::{Structs, Variable};
use crate::check::first::{both, either};
use crate::check::names::add_name;
use crate::check::structs::is_declared;
use crate::check::types::{Ty, is_scalar};
use crate::maps::add;
use bl_tree::NoMemory;
use bl_tree::c::{CFunc, CLocal, CParam};
use std::alloc::Global;
use std::collections::HashMap;

/// Parameters and locals by name.
pub type Variables<'a> = HashMap<&'a str, Variable<'a>>;

fn add_param_names<'a>(names: &mut Vec<&'a str>, params: &'a [CParam]) -> Result<(), NoMemory>
    ensures { OnOk result (bytes_of names.new.items ≡ bytes_of names.old.items ++ map (λ p. p.name) params.now) }
{
    for param in params {
        add_name(names, param.name.as_str())?;
    }
    Ok(())
}

fn add_local_names<'a>(names: &mut Vec<&'a str>, locals: &'a [CLocal]) -> Result<(), NoMemory>
    ensures { OnOk result (bytes_of names.new.items ≡ bytes_of names.old.items ++ map (λ l. l.name) locals.now) }
{
    for local in locals {
        add_name(names, local.name.as_str())?;
    }
    Ok(())
}

/// The names of a function's parameters and locals.
pub fn names_of<'a>(alloc: Global, of: &'a CFunc) -> Result<Vec<&'a str>, NoMemory>
    ensures { IfOk result (λ names. bytes_of names.items ≡ variable_names of.now) }
{
    let mut names = Vec::new(alloc);
    add_param_names(&mut names, &of.params)?;
    add_local_names(&mut names, &of.locals)?;
    Ok(names)
}

fn add_params<'a>(variables: &mut Variables<'a>, params: &'a [CParam]) -> Result<(), NoMemory>
    ensures { OnOk result ((asked : List ℕ) →
        variables_in_map variables.new asked ≡ option_or (variables_in_map variables.old asked) (found asked (map param_variable params.now))) }
{
    for param in params {
        let variable = Variable {
            pointer: param.pointer,
            ty: &param.ty,
        };
        add(variables, param.name.as_str(), variable)?;
    }
    Ok(())
}

fn add_locals<'a>(variables: &mut Variables<'a>, locals: &'a [CLocal]) -> Result<(), NoMemory>
    ensures { OnOk result ((asked : List ℕ) →
        variables_in_map variables.new asked ≡ option_or (variables_in_map variables.old asked) (found asked (map local_variable locals.now))) }
{
    for local in locals {
        let variable = Variable {
            pointer: false,
            ty: &local.ty,
        };
        add(variables, local.name.as_str(), variable)?;
    }
    Ok(())
}

/// A function's parameters and locals by name.
pub fn variables_in<'a>(alloc: Global, of: &'a CFunc) -> Result<Variables<'a>, NoMemory>
    ensures { IfOk result (λ variables. (asked : List ℕ) → variables_in_map variables asked ≡ table_of (parameters_and_locals of.now) asked) }
{
    let mut variables = HashMap::new(alloc);
    add_params(&mut variables, &of.params)?;
    add_locals(&mut variables, &of.locals)?;
    Ok(variables)
}

/// Names as keys.
pub fn as_keys<'a>(alloc: Global, names: &[&'a str]) -> Result<HashMap<&'a str, ()>, NoMemory>
    ensures { IfOk result (λ keys. (asked : List ℕ) → text_at keys asked ≡ names_table (bytes_of names.now) asked) }
{
    let mut keys = HashMap::new(alloc);
    for name in names {
        add(&mut keys, name, ())?;
    }
    Ok(keys)
}

/// Whether every struct of a parameter's type is declared.
pub fn params_are_declared(structs: &Structs<'_>, params: &[CParam]) -> bool
    ensures { result ≡ list_all (λ p. is_c_declared (checked_structs structs.now) p.ty) params.now }
{
    let mut declared = true;
    for param in params {
        declared = both(declared, is_declared(structs, &param.ty));
    }
    declared
}

pub fn locals_are_declared(structs: &Structs<'_>, locals: &[CLocal]) -> bool
    ensures { result ≡ list_all (λ l. is_c_declared (checked_structs structs.now) l.ty) locals.now }
{
    let mut declared = true;
    for local in locals {
        declared = both(declared, is_declared(structs, &local.ty));
    }
    declared
}

/// Whether each parameter that is no pointer is a scalar.
pub fn params_are_scalar(params: &[CParam]) -> bool
    ensures { result ≡ list_all (λ p. p.pointer || is_c_scalar p.ty) params.now }
{
    let mut scalar = true;
    for param in params {
        scalar = both(scalar, either(param.pointer, is_scalar(Ty::of(&param.ty))));
    }
    scalar
}
