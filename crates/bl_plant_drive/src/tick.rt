//! One tick of a closed loop.

ghost use Rattle.std.specs.Prelude.{◌≡◌, ◌<◌, ◌^◌, IfOk, length, map};
ghost use Rattle.bl_ctext_semantics.specs.Cells.{outputs_of};
ghost use Rattle.bl_crun.specs.Running.{Running};
ghost use Rattle.bl_plant_drive.specs.Drives.{DriveSetting};
ghost use Rattle.bl_plant_drive.specs.inner.Round.{seat_numbers};
ghost use Rattle.bl_plant_drive.specs.inner.Stands.{AskedSoFar, Scene};
ghost use Rattle.bl_plant_drive.specs.inner.Ticks.{Goes, HasInputs, IsTickOfRunner, RowCloses, RowEnds, TickCloses, TickEnds};

use crate::driven::{Driven, Gone};
use crate::fault::DriveFault;
use crate::inputs::row_of;
use crate::recorded::{record_row, record_trap};
use crate::round::ask_all;
use crate::seat::Seat;
use crate::tell::tell_all;
use bl_crun::{Runner, TickAnswer};
use bl_plant::Plant;
use bl_tree::{Column, Last, List, NoMemory, Row};
use std::alloc::Global;

/// Asks the plants, does a tick of the runner, tells them its outputs, and records it.
pub fn drive_tick(
    alloc: Global,
    runner: &mut Runner,
    plants: &mut Vec<Box<dyn Plant>>,
    seats: &mut Vec<Seat>,
    ticks: u32,
    into: &mut Driven,
) -> Result<TickAnswer, DriveFault>
    requires { (s : DriveSetting) × (ticks < s.ticks) × Goes s ticks runner.old (map (λ b. shown b) plants.old.items) seats.old.items into.old }
    ensures { (s : DriveSetting) → ticks < s.ticks → Goes s ticks runner.old (map (λ b. shown b) plants.old.items) seats.old.items into.old →
        TickEnds s ticks runner.new (map (λ b. shown b) plants.new.items) seats.new.items into.new result }
{
    let inputs = runner.inputs().as_slice();
    let ins = ask_row(alloc, inputs, plants, seats, ticks, &mut into.gone)?;
    let mut outs = outputs_row(alloc, runner)?;
    let answer = runner.tick(&ins, &mut outs);
    close(alloc, answer, ins, outs, plants, seats, into)?;
    Ok(answer)
}

/// Asks the plants for the row of inputs.
fn ask_row(
    alloc: Global,
    inputs: &[Column],
    plants: &mut Vec<Box<dyn Plant>>,
    seats: &mut Vec<Seat>,
    ticks: u32,
    gone: &mut List<Gone>,
) -> Result<Row, DriveFault>
    requires stands { (s : Scene) × (length s.ins ≡ ticks) × AskedSoFar s 0 (map (λ b. shown b) plants.old.items) seats.old.items gone.old }
    requires wide { length (seat_numbers seats.old.items) ≡ length inputs.now }
    requires few { length inputs.now < 2 ^ 32 }
    ensures { (s : Scene) → length s.ins ≡ ticks → AskedSoFar s 0 (map (λ b. shown b) plants.old.items) seats.old.items gone.old →
        RowEnds s inputs.now (map (λ b. shown b) plants.new.items) seats.new.items gone.new result }
{
    ask_all(alloc, inputs, plants, seats, ticks, gone)?;
    let row = row_of(alloc, seats, inputs.len() as u32)?;
    Ok(row)
}

/// A row for the outputs of a tick.
fn outputs_row(alloc: Global, runner: &Runner) -> Result<Row, NoMemory>
    ensures { IfOk result (λ row. length row ≡ length (outputs_of runner.now.parts)) }
{
    let Ok(count) = u32::try_from(runner.outputs().len()) else {
        return Err(NoMemory);
    };
    Row::new(alloc, count)
}

/// Ends a tick that came to this answer.
fn close(
    alloc: Global,
    answer: TickAnswer,
    ins: Row,
    outs: Row,
    plants: &mut Vec<Box<dyn Plant>>,
    seats: &[Seat],
    into: &mut Driven,
) -> Result<(), NoMemory>
    requires { (s : DriveSetting) × (runner : Running) × IsTickOfRunner s runner (map (λ b. shown b) plants.old.items) seats.now into.old ins outs answer }
    ensures { (s : DriveSetting) (runner : Running) → IsTickOfRunner s runner (map (λ b. shown b) plants.old.items) seats.now into.old ins outs answer →
        TickCloses s (length into.old.ins) runner (map (λ b. shown b) plants.new.items) seats.now into.new answer result }
{
    match answer {
        TickAnswer::Row => close_row(alloc, ins, outs, Last::Open, plants, seats, into),
        TickAnswer::Ended => close_row(alloc, ins, outs, Last::Ended, plants, seats, into),
        TickAnswer::Trap => record_trap(ins, into),
    }
}

/// Tells the plants the row of outputs, and records the tick.
fn close_row(
    alloc: Global,
    ins: Row,
    outs: Row,
    last: Last,
    plants: &mut Vec<Box<dyn Plant>>,
    seats: &[Seat],
    into: &mut Driven,
) -> Result<(), NoMemory>
    requires { (s : DriveSetting) × HasInputs s (map (λ b. shown b) plants.old.items) seats.now into.old ins }
    ensures { (s : DriveSetting) → HasInputs s (map (λ b. shown b) plants.old.items) seats.now into.old ins →
        RowCloses s into.old ins outs last (map (λ b. shown b) plants.new.items) seats.now into.new result }
{
    tell_all(plants, seats, &outs)?;
    record_row(alloc, ins, outs, last, into)
}
