//! Elements and parts of slices, where there may be none.

ghost use Rattle.std.specs.Prelude.{◌≡◌, ◌++◌, OnOk, [], drop, option_map, take};
ghost use Rattle.bl_types.specs.Expressions.{but_first, first_type, params_of, with_made};
ghost use Rattle.bl_types.specs.Statements.{outputs_wanted};

use bl_tree::tree::{Ty, Unit, Var};
use bl_tree::{List, NoMemory};

/// Adds the element, where there is one.
pub fn keep<T: Drop>(list: &mut List<T>, one: Option<T>) -> Result<(), NoMemory>
    ensures { OnOk result (list.new ≡ list.old ++ with_made one []) }
{
    if let Some(one) = one {
        list.push(one)?;
    }
    Ok(())
}

/// The type of the first parameter, where there is one.
pub fn first_type(params: &[Var]) -> Option<&Ty>
    ensures { option_map (λ ty. ty.now) result ≡ first_type params.now }
{
    match params {
        [] => None,
        [first, ..] => Some(&first.ty),
    }
}

pub fn but_first(params: &[Var]) -> &[Var]
    ensures { result.now ≡ but_first params.now }
{
    match params {
        [] => params,
        [_, rest @ ..] => rest,
    }
}

fn front(vars: &[Var], n: usize) -> &[Var]
    ensures { result.now ≡ take n vars.now }
{
    if n < vars.len() { &vars[..n] } else { vars }
}

fn behind(vars: &[Var], n: usize) -> &[Var]
    ensures { result.now ≡ drop n vars.now }
{
    if n < vars.len() { &vars[n..] } else { &[] }
}

pub fn inputs_of(callee: Option<&Unit>) -> &[Var]
    ensures { result.now ≡ params_of (option_map (λ unit. unit.now) callee.entry) }
{
    match callee {
        Some(unit) => front(&unit.vars, unit.inputs as usize),
        None => &[],
    }
}

pub fn outputs_of(callee: Option<&Unit>) -> &[Var]
    ensures { result.now ≡ outputs_wanted (option_map (λ unit. unit.now) callee.entry) }
{
    match callee {
        Some(unit) => front(
            behind(&unit.vars, unit.inputs as usize),
            unit.outputs as usize,
        ),
        None => &[],
    }
}
