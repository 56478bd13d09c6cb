//! Declarations: initial values, constants, variables, parameters and structs.
#![tactic(auto, using(crate::proofs::NoteLemmas::notes, crate::proofs::StateLemmas::states))]

ghost use Rattle.std.specs.Prelude.{◌≡◌, IfOk, OnOk, map, option_and_then, option_map};
ghost use Rattle.bl_tree.specs.Types.{scalar_in};
ghost use Rattle.bl_tree.specs.Reduce.{joined};
ghost use Rattle.bl_types.specs.Declarations.{after_constant, after_parameter, after_parameters, after_struct, after_variable, constant_failures};
ghost use Rattle.bl_types.specs.Declarations.{constant_of, expr_of_form, field_lengths, field_of, initial, is_parameter};
ghost use Rattle.bl_types.specs.Declarations.{optional_lengths, type_of_form, with_variable};
ghost use Rattle.bl_types.specs.Failures.{noted};
ghost use Rattle.bl_types.specs.inner.States.{after};
ghost use Rattle.bl_types.specs.Written.{written_type};

use crate::environment::{Constant, Environment, State, Variable};
use crate::expr::{in_context, judge};
use crate::failure::Notes;
use crate::fold::constant_number;
use crate::form::{Form, Valued};
use crate::operators::closed;
use crate::types::{scalar_in, typed};
use bl_names_tree::expr::NamedExpr;
use bl_names_tree::item::{NamedConstant, NamedField, NamedStruct, NamedVar};
use bl_names_tree::types::NamedType;
use bl_tree::tree::{Field, Role, StructDef, Ty};
use bl_tree::{List, NoMemory, Place, Rule, Scalar, Text};
use std::alloc::Global;

/// The initial value of what has the type, where one is written.
pub fn initial(
    alloc: Global,
    written: &Option<NamedType>,
    e: &NamedExpr,
    env: &Environment,
    notes: &mut Notes,
) -> Result<Valued, NoMemory>
    ensures ty { IfOk result (λ valued. valued.ty ≡ (initial env.now written.now e.now).valued.ty) }
    ensures value { IfOk result (λ valued. valued.value ≡ (initial env.now written.now e.now).valued.value) }
    ensures notes { OnOk result (notes.new ≡ noted notes.old (initial env.now written.now e.now).failures) }
{
    match written {
        Some(written) => {
            let ty = typed(alloc, &env.constants, written, notes)?;
            let value = in_context(alloc, Some(&ty), e, env, notes)?;
            Ok(Valued {
                ty: Some(ty),
                value,
            })
        }
        None => {
            let form = judge(alloc, e, env, notes)?;
            Ok(valued(closed(alloc, form, notes)?))
        }
    }
}

fn valued(form: Form) -> Valued
    ensures ty { result.ty ≡ type_of_form form }
    ensures value { result.value ≡ expr_of_form form }
{
    match form {
        Form::Of(ty, e) => Valued {
            ty: Some(ty),
            value: Some(e),
        },
        _ => Valued {
            ty: None,
            value: None,
        },
    }
}

fn scalar_of(ty: &Option<Ty>) -> Option<Scalar>
    ensures { result ≡ option_and_then scalar_in ty.now }
{
    match ty {
        Some(ty) => scalar_in(ty),
        None => None,
    }
}

/// A constant is to be scalar, and its value one that stands for a number.
fn constant_of(name: Place, e: &NamedExpr, valued: &Valued, notes: &mut Notes) -> Constant
    ensures constant { result ≡ constant_of e.now valued.now }
    ensures notes { notes.new ≡ noted notes.old (constant_failures name e.now valued.now) }
{
    let ty = scalar_of(&valued.ty);
    if valued.ty.is_some() && ty.is_none() {
        notes.fail(Rule::Type, name);
    }
    Constant {
        ty,
        value: constant_number(e, &valued.value, notes),
    }
}

/// After a constant.
pub fn constant(alloc: Global, constant: &NamedConstant, state: &mut State) -> Result<(), NoMemory>
    ensures { OnOk result (state.new ≡ after state.old (after_constant constant.now)) }
{
    let value = initial(
        alloc,
        &constant.ty,
        &constant.value,
        &state.env,
        &mut state.notes,
    )?;
    let made = constant_of(
        constant.name.place,
        &constant.value,
        &value,
        &mut state.notes,
    );
    state.env.constants.push(made)?;
    Ok(())
}

/// Adds a variable of the type.
pub fn declare(
    alloc: Global,
    var: &NamedVar,
    ty: Option<Ty>,
    env: &mut Environment,
) -> Result<(), NoMemory>
    ensures { OnOk result (env.new ≡ with_variable env.old var.now ty) }
{
    env.vars.push(Variable {
        name: Text::copy_of(alloc, &var.name.text)?,
        place: var.name.place,
        ty,
        role: var.role,
    })?;
    Ok(())
}

fn optional(
    alloc: Global,
    written: &Option<NamedType>,
    env: &Environment,
    notes: &mut Notes,
) -> Result<Option<Ty>, NoMemory>
    ensures ty { IfOk result (λ ty. ty ≡ option_map (written_type env.now.constants) written.now) }
    ensures notes { OnOk result (notes.new ≡ noted notes.old (optional_lengths env.now written.now)) }
{
    match written {
        Some(written) => Ok(Some(typed(alloc, &env.constants, written, notes)?)),
        None => Ok(None),
    }
}

/// After a variable without a value.
pub fn variable(alloc: Global, var: &NamedVar, state: &mut State) -> Result<(), NoMemory>
    ensures { OnOk result (state.new ≡ after state.old (after_variable var.now)) }
{
    let ty = optional(alloc, &var.ty, &state.env, &mut state.notes)?;
    declare(alloc, var, ty, &mut state.env)
}

pub fn is_parameter(role: Role) -> bool
    ensures { result ≡ is_parameter role }
{
    matches!(role, Role::Input | Role::Output)
}

fn parameter(alloc: Global, var: &NamedVar, state: &mut State) -> Result<(), NoMemory>
    ensures { OnOk result (state.new ≡ after state.old (after_parameter var.now)) }
{
    if is_parameter(var.role) {
        variable(alloc, var, state)
    } else {
        Ok(())
    }
}

/// After the parameters among the variables of a unit.
pub fn parameters(alloc: Global, vars: &[NamedVar], state: &mut State) -> Result<(), NoMemory>
    ensures { OnOk result (state.new ≡ after state.old (after_parameters vars.now)) }
{
    for var in vars {
        parameter(alloc, var, state)?;
    }
    Ok(())
}

fn field(
    alloc: Global,
    field: &NamedField,
    env: &Environment,
    notes: &mut Notes,
) -> Result<Field, NoMemory>
    ensures made { IfOk result (λ made. made ≡ field_of env.now field.now) }
    ensures notes { OnOk result (notes.new ≡ noted notes.old (field_lengths env.now field.now)) }
{
    Ok(Field {
        name: Text::copy_of(alloc, &field.name.text)?,
        ty: typed(alloc, &env.constants, &field.ty, notes)?,
    })
}

fn fields(
    alloc: Global,
    all: &[NamedField],
    env: &Environment,
    notes: &mut Notes,
) -> Result<List<Field>, NoMemory>
    ensures made { IfOk result (λ made. made ≡ map (field_of env.now) all.now) }
    ensures notes { OnOk result (notes.new ≡ noted notes.old (joined (map (field_lengths env.now) all.now))) }
{
    let mut made = List::new(alloc);
    for one in all {
        made.push(field(alloc, one, env, notes)?)?;
    }
    Ok(made)
}

/// After a struct.
pub fn structure(alloc: Global, def: &NamedStruct, state: &mut State) -> Result<(), NoMemory>
    ensures { OnOk result (state.new ≡ after state.old (after_struct def.now)) }
{
    let fields = fields(alloc, &def.fields, &state.env, &mut state.notes)?;
    let made = StructDef {
        name: Text::copy_of(alloc, &def.name.text)?,
        place: def.name.place,
        fields,
    };
    state.env.structs.push(alloc, made)
}
