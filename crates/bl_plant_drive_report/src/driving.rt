//! A runner driven against plants, and what is told of it.

ghost use Rattle.std.specs.Prelude.{◌≡◌, map, true, IfErr, IfOk};
ghost use Rattle.bl_plant_drive_report.specs.Reports.{IsReport, LeavesPlants};

use crate::report::{Report, report_of};
use bl_crun::Runner;
use bl_plant::{Plant, PlantName};
use bl_plant_drive::{Driven, drive};
use bl_tree::NoMemory;
use std::alloc::Global;

/// Drives a live runner against the plants that the numbers name, for so many ticks or until the run ends or traps, and tells what
/// came of it. Fails only for want of memory.
pub fn run(
    alloc: Global,
    runner: Runner,
    plants: &mut Vec<Box<dyn Plant>>,
    names: &[u32],
    ticks: u32,
) -> Result<Report, NoMemory>
    requires { runner.live ≡ true }
    ensures report { IfOk result (λ report. IsReport
        (record { runner = runner; plants = map (λ b. shown b) plants.old.items; names = names.now; ticks = ticks })
        (map (λ b. shown b) plants.new.items) report) }
    ensures left { IfErr result (λ e. LeavesPlants
        (record { runner = runner; plants = map (λ b. shown b) plants.old.items; names = names.now; ticks = ticks })
        (map (λ b. shown b) plants.new.items)) }
{
    let named = named(alloc, names)?;
    let mut runner = runner;
    let mut driven = Driven::new(alloc);
    let how = drive(alloc, &mut runner, plants, &named, ticks, &mut driven);
    report_of(alloc, runner.outputs(), &driven, how)
}

fn named(alloc: Global, names: &[u32]) -> Result<Vec<PlantName>, NoMemory>
    ensures { IfOk result (λ named. map (λ n. n.number) named.items ≡ names.now) }
{
    let mut named = Vec::new(alloc);
    'names: for number in names {
        if named.push(PlantName { number: *number }).is_err() {
            return Err(NoMemory);
        }
    }
    Ok(named)
}
