//! The two calls: values of expressions, and acts.

ghost use Rattle.std.specs.Prelude.{◌≡◌, IfOk, OnErr, option_map};
ghost use Rattle.bl_eval.specs.Meaning.{plain};
ghost use Rattle.bl_eval.specs.Standing.{got_value, left_values, outcome_in_unit, value_in_unit, view_of};

use crate::datum::Datum;
use crate::evaluation::{Site, View, changes, evaluate};
use crate::operators::plain_value;
use crate::steps::make_all;
use bl_tree::slices::element;
use bl_tree::tree::{Expr, Stmt};
use bl_tree::{List, NoMemory, Program, Value};
use std::alloc::Global;
use std::mem;

/// One value for each variable of a unit, at the positions of its `vars`: the inputs, the outputs, then what its body
/// declares. An output has the value of the path that it stands for.
#[derive(Drop)]
pub struct Values {
    /// The position of the unit in the program.
    pub unit: u32,
    pub list: List<Value>,
}

/// What an expression gives.
#[derive(Drop)]
pub enum Got {
    Val(Value),
    Trap,
}

/// How an act ended.
#[derive(Clone, Copy, PartialEq, Eq, Debug)]
pub enum Did {
    Done,
    Trap,
}

/// The value of an expression of the unit whose variables are given. Fails only for want of memory.
pub fn value(
    alloc: Global,
    program: &Program,
    now: &Values,
    before: &Values,
    e: &Expr,
) -> Result<Got, NoMemory>
    ensures { IfOk result (λ got. got_value got ≡ value_in_unit program.now.structs program.now.units now.now.unit e.now (view_of now.now before.now)) }
{
    let Some(unit) = element(&program.units, now.unit as usize) else {
        return Ok(Got::Trap);
    };
    let site = Site {
        structs: &program.structs,
        earlier: &program.units[..now.unit as usize],
        vars: &unit.vars,
    };
    let view = View {
        now: &now.list,
        before: &before.list,
    };
    Ok(what_is(evaluate(alloc, &site, &view, e)?))
}

fn what_is(given: Option<Datum>) -> Got
    ensures { got_value result ≡ option_map plain given }
{
    match given {
        None => Got::Trap,
        Some(given) => Got::Val(plain_value(given)),
    }
}

/// Executes an assignment, a declaration or a call of the unit whose variables are given. After `Trap` and after want
/// of memory `now` is as before.
pub fn act(
    alloc: Global,
    program: &Program,
    now: &mut Values,
    before: &Values,
    s: &Stmt,
) -> Result<Did, NoMemory>
    ensures outcome { IfOk result (λ did. left_values did now.new
        ≡ outcome_in_unit program.now.structs program.now.units now.old.unit s.now (view_of now.old before.now)) }
    ensures unit { now.new.unit ≡ now.old.unit }
    ensures trap { IfOk result (λ did. did ≡ Did.Trap → now.new ≡ now.old) }
    ensures memory { OnErr result (now.new ≡ now.old) }
{
    let Some(unit) = element(&program.units, now.unit as usize) else {
        return Ok(Did::Trap);
    };
    let site = Site {
        structs: &program.structs,
        earlier: &program.units[..now.unit as usize],
        vars: &unit.vars,
    };
    let view = View {
        now: &now.list,
        before: &before.list,
    };
    let changes = changes(alloc, &site, &view, &s.what)?;
    match changes {
        None => Ok(Did::Trap),
        Some(puts) => {
            let mut vars = mem::replace(&mut now.list, List::new(alloc)).into_vec();
            make_all(&mut vars, puts);
            now.list = List::from_vec(vars);
            Ok(Did::Done)
        }
    }
}
