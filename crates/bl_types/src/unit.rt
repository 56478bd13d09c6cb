//! Units, the entry, and the items of a program in source order.
#![tactic(auto, using(crate::proofs::NoteLemmas::notes, crate::proofs::StateLemmas::states))]

ghost use Rattle.std.specs.Prelude.{◌≡◌, IfOk, OnOk, is_some};
ghost use Rattle.std.specs.List.{list_all};
ghost use Rattle.bl_tree.specs.declared.rule.Rule.TheVariants as rule;
ghost use Rattle.bl_tree.specs.Types.{scalar_in};
ghost use Rattle.bl_types.specs.Failures.{noted, unless};
ghost use Rattle.bl_types.specs.Returns.{return_failures};
ghost use Rattle.bl_types.specs.inner.States.{after, passed};
ghost use Rattle.bl_types.specs.Units.{after_head, after_unit, can_be_driven, drives, entries, entry_among, entered, is_scalar, environment_after, result_of};
ghost use Rattle.bl_types.specs.Units.{var_of, vars_of};

use crate::declare::{is_parameter, parameters};
use crate::environment::{Environment, State, Variable};
use crate::failure::Notes;
use crate::returns::judge_returns;
use crate::slices::keep;
use crate::stmt::{Source, block};
use crate::types::{scalar_in, typed};
use bl_names_tree::item::{NamedConstant, NamedUnit, NamedVar};
use bl_names_tree::types::NamedType;
use bl_tree::tree::{Stmt, Ty, Unit, UnitKind, Var};
use bl_tree::{List, NoMemory, Place, Rule, Scalar, Text};
use std::alloc::Global;
use std::mem;

/// The result of a unit, which is to be scalar.
fn outcome(
    alloc: Global,
    name: Place,
    written: &Option<NamedType>,
    env: &Environment,
    notes: &mut Notes,
) -> Result<Option<Scalar>, NoMemory>
    ensures outcome { IfOk result (λ outcome. outcome ≡ (result_of env.now name written.now).result) }
    ensures notes { OnOk result (notes.new ≡ noted notes.old (result_of env.now name written.now).failures) }
{
    let Some(written) = written else {
        return Ok(None);
    };
    let ty = typed(alloc, &env.constants, written, notes)?;
    Ok(scalar_outcome(name, &ty, notes))
}

fn scalar_outcome(name: Place, ty: &Ty, notes: &mut Notes) -> Option<Scalar>
    ensures outcome { result ≡ scalar_in ty.now }
    ensures notes { notes.new ≡ noted notes.old (unless (is_some (scalar_in ty.now)) rule.Type name) }
{
    match scalar_in(ty) {
        Some(s) => Some(s),
        None => {
            notes.fail(Rule::Type, name);
            None
        }
    }
}

/// The variable, where it has a type.
fn var_of(var: Variable) -> Option<Var>
    ensures { result ≡ var_of var }
{
    let Variable {
        name,
        place,
        ty,
        role,
    } = var;
    match ty {
        Some(ty) => Some(Var {
            name,
            place,
            ty,
            role,
        }),
        None => None,
    }
}

/// The variables that have types.
fn vars_of(alloc: Global, vars: List<Variable>) -> Result<List<Var>, NoMemory>
    ensures { IfOk result (λ made. made ≡ vars_of vars) }
{
    let mut made = List::new(alloc);
    for var in vars.into_vec() {
        keep(&mut made, var_of(var))?;
    }
    Ok(made)
}

/// What is known as a unit begins.
fn enter(alloc: Global, unit: &NamedUnit, env: &mut Environment)
    ensures { env.new ≡ entered unit.now env.old }
{
    env.vars = List::new(alloc);
    env.kind = unit.kind;
    env.result = None;
}

/// What is known as a unit is over.
fn leave(
    alloc: Global,
    unit: &NamedUnit,
    body: List<Stmt>,
    env: &mut Environment,
) -> Result<(), NoMemory>
    ensures { OnOk result (env.new ≡ environment_after unit.now body env.old) }
{
    let vars = mem::replace(&mut env.vars, List::new(alloc));
    let made = Unit {
        name: Text::copy_of(alloc, &unit.name.text)?,
        place: unit.name.place,
        kind: unit.kind,
        vars: vars_of(alloc, vars)?,
        inputs: unit.inputs,
        outputs: unit.outputs,
        result: env.result,
        body,
    };
    env.units.push(made)?;
    env.result = None;
    Ok(())
}

/// After the head of a unit.
fn begin(alloc: Global, unit: &NamedUnit, state: &mut State) -> Result<(), NoMemory>
    ensures { OnOk result (state.new ≡ after state.old (after_head unit.now)) }
{
    enter(alloc, unit, &mut state.env);
    parameters(alloc, &unit.vars, state)?;
    state.env.result = outcome(
        alloc,
        unit.name.place,
        &unit.result,
        &state.env,
        &mut state.notes,
    )?;
    Ok(())
}

/// After the body of a unit.
fn end(alloc: Global, unit: &NamedUnit, body: List<Stmt>, state: &mut State) -> Result<(), NoMemory>
    ensures { OnOk result (state.new ≡ passed state.old (environment_after unit.now body state.old.env) (return_failures unit.now)) }
{
    judge_returns(unit, &mut state.notes);
    leave(alloc, unit, body, &mut state.env)
}

/// After a unit, where these are the constants of the program.
pub fn unit(
    alloc: Global,
    constants: &[NamedConstant],
    unit: &NamedUnit,
    state: &mut State,
) -> Result<(), NoMemory>
    ensures { OnOk result (state.new ≡ after state.old (after_unit constants.now unit.now)) }
{
    begin(alloc, unit, state)?;
    let source = Source {
        constants,
        vars: &unit.vars,
    };
    let body = block(alloc, &unit.body, source, state)?;
    end(alloc, unit, body, state)
}

fn is_scalar(written: &Option<NamedType>) -> bool
    ensures { result ≡ is_scalar written.now }
{
    match written {
        Some(written) => matches!(written, NamedType::Scalar(_)),
        None => false,
    }
}

fn can_be_driven(var: &NamedVar) -> bool
    ensures { result ≡ can_be_driven var.now }
{
    !is_parameter(var.role) || is_scalar(&var.ty)
}

fn all_can_be_driven(vars: &[NamedVar]) -> bool
    ensures { result ≡ list_all can_be_driven vars.now }
{
    for var in vars {
        if !can_be_driven(var) {
            return false;
        }
    }
    true
}

/// Whether the environment can drive the unit: an activity without a result and with scalar parameters alone.
fn drives(unit: &NamedUnit) -> bool
    ensures { result ≡ drives unit.now }
{
    matches!(unit.kind, UnitKind::Activity)
        && unit.result.is_none()
        && all_can_be_driven(&unit.vars)
}

/// There is one entry, which the environment can drive. Where it is elsewhere, there is none among these units.
pub fn entries(elsewhere: bool, end: Place, units: &[NamedUnit], notes: &mut Notes)
    ensures { notes.new ≡ noted notes.old (entries elsewhere end units.now) }
{
    let mut seen = elsewhere;
    for unit in units {
        if unit.entry {
            if seen || !drives(unit) {
                notes.fail(Rule::Entry, unit.name.place);
            }
            seen = true;
        }
    }
    if !seen {
        notes.fail(Rule::Entry, end);
    }
}

/// The position of the first unit that is marked as the entry.
pub fn entry(units: &[NamedUnit]) -> Result<u32, NoMemory>
    ensures { IfOk result (λ entry. entry ≡ entry_among units.now 0) }
{
    for (k, unit) in units.iter().enumerate() {
        if unit.entry {
            return match u32::try_from(k) {
                Ok(k) => Ok(k),
                // A position is a 32-bit number, so more units are no list.
                Err(_) => Err(NoMemory),
            };
        }
    }
    Ok(0)
}
