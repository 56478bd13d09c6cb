//! Small units built by hand.

use bl_limits_measures::Measures;
use bl_tree::tree::{Expr, ExprKind, Role, Stmt, StmtKind, Ty, Unit, UnitKind, Var};
use bl_tree::{Box, List, NoMemory, Place, Scalar, Text, Width};
use std::alloc::Global;
use std::process::Abort;

const NOWHERE: Place = Place { start: 0, end: 0 };

const FIRST: Place = Place { start: 0, end: 1 };

const SECOND: Place = Place { start: 1, end: 2 };

fn stmt(what: StmtKind) -> Stmt {
    Stmt {
        place: NOWHERE,
        what,
    }
}

/// `await true`
fn waiting() -> Stmt {
    stmt(StmtKind::Await(Expr {
        place: NOWHERE,
        what: ExprKind::Literal(1, Scalar::Bool),
    }))
}

/// A `run` of the activity at the place, without arguments.
fn running(alloc: Global, activity: u32, place: Place) -> Stmt {
    Stmt {
        place,
        what: StmtKind::Run(None, activity, List::new(alloc), List::new(alloc)),
    }
}

fn activity(alloc: Global, vars: List<Var>, body: List<Stmt>) -> Result<Unit, NoMemory> {
    Ok(Unit {
        name: Text::copy_of(alloc, "A")?,
        place: NOWHERE,
        kind: UnitKind::Activity,
        vars,
        inputs: 0,
        outputs: 0,
        result: None,
        body,
    })
}

/// The first activity waits, and each of the others runs the one before it twice.
fn doubling(alloc: Global, last: u32) -> Result<List<Unit>, NoMemory> {
    let mut units = List::new(alloc);
    let mut first = List::new(alloc);
    first.push(waiting())?;
    units.push(activity(alloc, List::new(alloc), first)?)?;
    for before in 0..last {
        let mut body = List::new(alloc);
        body.push(running(alloc, before, FIRST))?;
        body.push(running(alloc, before, SECOND))?;
        units.push(activity(alloc, List::new(alloc), body)?)?;
    }
    Ok(units)
}

#[test]
fn instances_double(rt: HostRuntime) -> Result<(), NoMemory> {
    let alloc = rt.alloc();
    let mut units = doubling(alloc, 11)?;
    let mut entry = List::new(alloc);
    entry.push(running(alloc, 11, FIRST))?;
    units.push(activity(alloc, List::new(alloc), entry)?)?;
    let mut larger = List::new(alloc);
    larger.push(running(alloc, 11, FIRST))?;
    larger.push(running(alloc, 0, SECOND))?;
    units.push(activity(alloc, List::new(alloc), larger)?)?;
    let measures = Measures::of_parts(alloc, &[], &units)?;
    assert_eq!(&rt; measures.instances(12), 4_096);
    assert_eq!(&rt; measures.instances(13), 4_097);
    assert_eq!(&rt; measures.chain(12), 13);
    assert_eq!(&rt; measures.cells(1), 40);
    assert_eq!(&rt; measures.instances(14), 0);
    Ok(())
}

/// Two `run` statements of one place are one instance.
#[test]
fn runs_of_one_place_count_once(rt: HostRuntime) -> Result<(), NoMemory> {
    let alloc = rt.alloc();
    let mut units = doubling(alloc, 0)?;
    let mut body = List::new(alloc);
    body.push(running(alloc, 0, FIRST))?;
    body.push(running(alloc, 0, FIRST))?;
    units.push(activity(alloc, List::new(alloc), body)?)?;
    let measures = Measures::of_parts(alloc, &[], &units)?;
    assert_eq!(&rt; measures.instances(1), 2);
    Ok(())
}

#[test]
fn numbers_saturate(rt: HostRuntime) -> Result<(), NoMemory> {
    let alloc = rt.alloc();
    let units = doubling(alloc, 69)?;
    let measures = Measures::of_parts(alloc, &[], &units)?;
    assert_eq!(&rt; measures.instances(29), 1_073_741_823);
    assert_eq!(&rt; measures.instances(69), u64::MAX);
    assert_eq!(&rt; measures.cells(69), u64::MAX);
    assert_eq!(&rt; measures.chain(69), 70);
    Ok(())
}

/// An `int32`, and four arrays of 65,536 of them
#[test]
fn variables_count_by_their_scalars(rt: HostRuntime) -> Result<(), NoMemory> {
    let alloc = rt.alloc();
    let number = Ty::Scalar(Scalar::Int(Width::W32));
    let mut vars = List::new(alloc);
    vars.push(Var {
        name: Text::copy_of(alloc, "o")?,
        place: NOWHERE,
        ty: number,
        role: Role::Output,
    })?;
    let mut body = List::new(alloc);
    for k in 1u32..5 {
        let element = Box::new(alloc, Ty::Scalar(Scalar::Int(Width::W32)))?;
        vars.push(Var {
            name: Text::copy_of(alloc, "a")?,
            place: NOWHERE,
            ty: Ty::Array(65_536, element),
            role: Role::Variable,
        })?;
        body.push(stmt(StmtKind::Declare(k, None)))?;
    }
    body.push(waiting())?;
    let mut units = List::new(alloc);
    units.push(activity(alloc, vars, body)?)?;
    let measures = Measures::of_parts(alloc, &[], &units)?;
    assert_eq!(&rt; measures.variables.as_slice(), [262_145].as_slice());
    assert_eq!(&rt; measures.statements.as_slice(), [5].as_slice());
    assert_eq!(&rt; measures.cells(0), 1_048_608);
    Ok(())
}
