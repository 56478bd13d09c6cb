//! The set `o = o + i`, as an expression and as an act, where the sum is in its type and where it isn't.

use crate::program::first_of;
use bl_eval::{Did, Got, Values, act, value};
use bl_rules::accept;
use bl_tree::tree::{Expr, Stmt, StmtKind};
use bl_tree::{List, NoMemory, Value};
use std::alloc::Global;

const ADDS: &str =
    "@[EntryPoint] activity M (i: int32)(o: int32) repeat o = o + i await true end end";

/// What an assignment gives its target.
fn given_by(set: &Stmt) -> Option<&Expr> {
    let StmtKind::Assign(_, e) = &set.what else {
        return None;
    };
    Some(e)
}

fn values(alloc: Global, input: i128, output: i128) -> Result<Values, NoMemory> {
    let mut list = List::new(alloc);
    list.push(Value::Number(input))?;
    list.push(Value::Number(output))?;
    Ok(Values { unit: 0, list })
}

fn number_of(got: Got) -> Option<i128> {
    match got {
        Got::Val(Value::Number(n)) => Some(n),
        _ => None,
    }
}

/// The value of the output.
fn output_of(now: &Values) -> Option<i128> {
    match now.list.as_slice() {
        [_, Value::Number(n)] => Some(*n),
        _ => None,
    }
}

/// How a set ended.
#[derive(Clone, Copy)]
struct Ended {
    /// What its expression gives; none where it traps.
    given: Option<i128>,
    is_done: bool,
    /// The value of the output afterwards.
    output: Option<i128>,
}

/// How the set ends from these values.
fn tried(alloc: Global, input: i128, output: i128) -> Result<Option<Ended>, NoMemory> {
    let Ok(accepted) = accept(alloc, ADDS.as_bytes()) else {
        return Ok(None);
    };
    let program = accepted.program();
    let Some(set) = first_of(program) else {
        return Ok(None);
    };
    let Some(e) = given_by(set) else {
        return Ok(None);
    };
    let before = values(alloc, input, output)?;
    let mut now = values(alloc, input, output)?;
    let given = number_of(value(alloc, program, &now, &before, e)?);
    let did = act(alloc, program, &mut now, &before, set)?;
    Ok(Some(Ended {
        given,
        is_done: did == Did::Done,
        output: output_of(&now),
    }))
}

#[test]
fn a_sum_in_its_type_is_set(rt: HostRuntime) -> Result<(), NoMemory> {
    let alloc = rt.alloc();
    let ended = tried(alloc, 5, 2)?;
    assert!(rt;
        matches!(
            ended,
            Some(Ended {
                given: Some(7),
                is_done: true,
                output: Some(7)
            })
        )
    );
    Ok(())
}

#[test]
fn a_sum_outside_of_its_type_traps_and_changes_nothing(rt: HostRuntime) -> Result<(), NoMemory> {
    let alloc = rt.alloc();
    let ended = tried(alloc, 1, 2_147_483_647)?;
    assert!(rt;
        matches!(
            ended,
            Some(Ended {
                given: None,
                is_done: false,
                output: Some(2_147_483_647)
            })
        )
    );
    Ok(())
}
