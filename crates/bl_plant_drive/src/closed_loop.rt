//! A closed loop of a runner and plants.

ghost use Rattle.std.specs.Prelude.{◌≡◌, ◌<◌, ◌^◌, length, map, true, IfErr, IfOk};
ghost use Rattle.bl_ctext_semantics.specs.Cells.{inputs_of};
ghost use Rattle.bl_crun.specs.Running.{is_row};
ghost use Rattle.bl_plant_drive.specs.Drives.{DriveEnds};
ghost use Rattle.bl_plant_drive.specs.Driven.{nothing_driven};
ghost use Rattle.bl_plant_drive.specs.inner.Begins.{HasBegun, HasNotBegun};

use crate::driven::Driven;
use crate::fault::DriveFault;
use crate::names::{test_names, test_width};
use crate::seat::Seat;
use crate::seats::seats_of;
use crate::tick::drive_tick;
use bl_crun::{Runner, TickAnswer};
use bl_plant::{Plant, PlantName};
use bl_tree::NoMemory;
use std::alloc::Global;

/// Drives a live runner against the plants that are named, for so many ticks or until the run ends or traps, and records it. The
/// plants that are named fill the inputs in the order of the names; a name means the first plant of the list that has it. In each
/// tick they are asked for their columns, the runner does its tick, and they are told the outputs, unless it traps. One that
/// finishes is taken out of the list and dropped, and its columns keep the numbers of its last row, or zeros.
pub fn drive(
    alloc: Global,
    runner: &mut Runner,
    plants: &mut Vec<Box<dyn Plant>>,
    names: &[PlantName],
    ticks: u32,
    into: &mut Driven,
) -> Result<(), DriveFault>
    requires live { runner.old.live ≡ true }
    requires empty { into.old ≡ nothing_driven }
    ensures { DriveEnds
        (record { runner = runner.old; plants = map (λ b. shown b) plants.old.items; names = map (λ n. n.number) names.now; ticks = ticks })
        (record { runner = runner.new; plants = map (λ b. shown b) plants.new.items; driven = into.new }) result }
{
    let mut seats = begin(alloc, runner, plants, names)?;
    for done in 0..ticks {
        let answer = drive_tick(alloc, runner, plants, &mut seats, done, into)?;
        if !goes_on(answer) {
            return Ok(());
        }
    }
    Ok(())
}

/// Tests the names and their widths, and makes a seat for each.
fn begin(
    alloc: Global,
    runner: &Runner,
    plants: &[Box<dyn Plant>],
    names: &[PlantName],
) -> Result<Vec<Seat>, DriveFault>
    ensures begun { IfOk result (λ seats. HasBegun runner.now (map (λ b. shown b) plants.now) (map (λ n. n.number) names.now) seats.items) }
    ensures stopped { IfErr result (λ fault. HasNotBegun runner.now (map (λ b. shown b) plants.now) (map (λ n. n.number) names.now) fault) }
{
    test_names(plants, names)?;
    let wanted = inputs_count(runner)?;
    test_width(plants, names, wanted)?;
    let seats = seats_of(alloc, plants, names)?;
    Ok(seats)
}

/// Whether the run goes on behind a tick.
fn goes_on(answer: TickAnswer) -> bool
    ensures { result ≡ is_row answer }
{
    match answer {
        TickAnswer::Row => true,
        TickAnswer::Ended | TickAnswer::Trap => false,
    }
}

/// How many inputs a runner has; more than 32 bits tell are never there.
fn inputs_count(runner: &Runner) -> Result<u32, NoMemory>
    ensures count { IfOk result (λ count. count ≡ length (inputs_of runner.now.parts)) }
    ensures few { IfOk result (λ count. count < 2 ^ 32) }
{
    let Ok(count) = u32::try_from(runner.inputs().len()) else {
        return Err(NoMemory);
    };
    Ok(count)
}
