//! Programs, judged by their peeled activities.

ghost use Rattle.std.specs.Prelude.{◌≡◌, IfErr, IfOk, OnOk, unwrap_or, ◌≤◌, length};
ghost use Rattle.bl_cause.specs.Accepted.{IsSchedule};
ghost use Rattle.bl_cause_trees.specs.inner.Judging.{AreKept, with_bodies};
ghost use Rattle.bl_cause_trees.specs.Rules.{Fails, Passes};
ghost use Rattle.bl_cause_trees.specs.Peeled.{IsPeeled, PeeledAreTyped};
ghost use Rattle.bl_tree.specs.Program.{IsWellTyped};
ghost use Rattle.bl_tree.specs.Rules.{IsCause};

use crate::copies::{structs, units_with};
use crate::units::{Kept, judged_units};
use bl_cause::Schedule;
use bl_tree::tree::{Stmt, StructDef, Unit};
use bl_tree::{List, NoMemory, Program, Refusal};
use std::alloc::Global;

/// A program for which neither rule fails: the peeled program, and the schedule of that.
#[derive(Drop)]
pub struct Scheduled {
    /// The peeled program, where some unit doesn't stay as it is. Else it is the program that was judged.
    pub peeled: Option<Program>,
    /// The tick graphs and orders of the peeled program.
    pub schedule: Schedule,
}

/// Judges the rules Twice and Cycle on the peeled units of a program, and returns the peeled program with its schedule. The caller must
/// show that the peeled program is well-typed.
pub fn check(alloc: Global, program: &Program) -> Result<Scheduled, Refusal>
    requires typed { PeeledAreTyped program.now.structs program.now.units program.now.entry }
    ensures passes { OnOk result (Passes program.now.units) }
    ensures peeled { IfOk result (λ made. IsPeeled program.now (unwrap_or made.peeled program.now)) }
    ensures schedule { IfOk result (λ made. IsSchedule (unwrap_or made.peeled program.now).units made.schedule.graphs
        made.schedule.orders) }
    ensures cause { IfErr result (IsCause (Fails program.now.units)) }
{
    let kept = match judged_units(alloc, &program.units) {
        Ok(kept) => kept,
        Err(refusal) => return Err(refusal),
    };
    match schedule_of(alloc, program, kept) {
        Ok(made) => Ok(made),
        Err(NoMemory) => Err(Refusal::NoMemory),
    }
}

/// Judges the two rules on the peeled units of units that need not be those of a program.
pub fn check_units(alloc: Global, units: &[Unit]) -> Result<(), Refusal>
    ensures passes { OnOk result (Passes units.now) }
    ensures cause { IfErr result (IsCause (Fails units.now)) }
{
    match judged_units(alloc, units) {
        Ok(_) => Ok(()),
        Err(refusal) => Err(refusal),
    }
}

/// The peeled program with its schedule.
fn schedule_of(alloc: Global, program: &Program, kept: Kept) -> Result<Scheduled, NoMemory>
    requires typed { PeeledAreTyped program.now.structs program.now.units program.now.entry }
    requires kept { AreKept program.now.units kept }
    ensures peeled { IfOk result (λ made. IsPeeled program.now (unwrap_or made.peeled program.now)) }
    ensures schedule { IfOk result (λ made. IsSchedule (unwrap_or made.peeled program.now).units made.schedule.graphs
        made.schedule.orders) }
{
    let Kept {
        bodies,
        graphs,
        orders,
        peels,
    } = kept;
    let schedule = Schedule { graphs, orders };
    if peels {
        let peeled = peeled_program(alloc, program, bodies)?;
        Ok(Scheduled {
            peeled: Some(peeled),
            schedule,
        })
    } else {
        Ok(Scheduled {
            peeled: None,
            schedule,
        })
    }
}

/// The program once more, with other bodies.
fn peeled_program(
    alloc: Global,
    program: &Program,
    bodies: List<Option<List<Stmt>>>,
) -> Result<Program, NoMemory>
    requires few { length bodies ≤ length program.now.units }
    requires typed { IsWellTyped program.now.structs (with_bodies program.now.units bodies) program.now.entry }
    ensures structs { IfOk result (λ peeled. peeled.structs ≡ program.now.structs) }
    ensures units { IfOk result (λ peeled. peeled.units ≡ with_bodies program.now.units bodies) }
    ensures entry { IfOk result (λ peeled. peeled.entry ≡ program.now.entry) }
{
    let structs = structs(alloc, &program.structs)?;
    let units = units_with(alloc, &program.units, bodies)?;
    Ok(program_of(structs, units, program.entry))
}

/// The program that has these structs and units.
fn program_of(structs: List<StructDef>, units: List<Unit>, entry: u32) -> Program
    requires { IsWellTyped structs units entry }
    ensures structs { result.structs ≡ structs }
    ensures units { result.units ≡ units }
    ensures entry { result.entry ≡ entry }
{
    Program {
        structs,
        units,
        entry,
    }
}
