//! The command `drive P TICKS PLANT..`.

ghost use Rattle.std.specs.Prelude.{◌≡◌, ◌≤◌, map, IfErr, IfOk, Some};
ghost use Rattle.bl_top_commands.specs.Calls.{Output, call_of, output_of};
ghost use Rattle.bl_top_commands.specs.inner.Outcomes.{lines_in};
ghost use Rattle.bl_top_commands.specs.Reads.{Reads, files_read};
ghost use Rattle.bl_io.specs.Count.{NeverFell};
ghost use Rattle.bl_rules_laws_sizes.specs.Small.{IsOfSmallTree};
ghost use Rattle.bl_top.specs.Drive.{DriveEnds, drive_status};
ghost use Rattle.bl_top.specs.inner.Driven.{MayHaveDriven, TellsReport, WritesReport};
ghost use Rattle.bl_top_args.specs.Jobs.{drive};

use crate::run::runner_of;
use bl_io::{Files, IoFault, Sink, write_all};
use bl_plant::Plant;
use bl_plant_drive_report::{End, Report, run};
use bl_rules::AcceptedSource;
use bl_rules_laws_sizes::programs_of_texts_are_small;
use bl_top_commands::answer::Answer;
use bl_top_commands::outcome::Outcome;
use bl_top_commands::source::accepted_of;
use bl_top_commands::status::Status;
use bl_tree::NoMemory;
use std::alloc::Global;

/// Drives the source file of this name against the plants that the numbers name, for so many ticks, and writes the trace. What
/// it shows is written once it was driven.
pub fn drive<F: Files, O: Sink>(
    alloc: Global,
    source: &str,
    ticks: u32,
    names: &[u32],
    files: &mut F,
    out: &mut O,
    plants: &mut Vec<Box<dyn Plant>>,
) -> Answer
    ensures ends { (notes : Output) → DriveEnds
        (call_of (F.left files.old) (F.left files.new) (F.faults files.old) (F.faults files.new)
        (output_of (O.faults out.old) (O.faults out.new) (O.held out.old) (O.held out.new)) notes)
        (record { before = map (λ b. shown b) plants.old.items; after = map (λ b. shown b) plants.new.items })
        source.now ticks names.now result.outcome.status (lines_in result) }
    ensures reads { Reads (files_read (Some (drive source.now ticks names.now))) (F.left files.old) (F.left files.new) }
    ensures file_counts { NeverFell (F.faults files.old) (F.faults files.new) }
    ensures out_count { O.faults out.old ≤ O.faults out.new }
{
    programs_of_texts_are_small();
    let accepted = match accepted_of(alloc, source, files) {
        Ok(accepted) => accepted,
        Err(outcome) => return Answer::alone(alloc, outcome),
    };
    match report_of(alloc, &accepted, ticks, names, plants) {
        Ok(report) => write_report(alloc, report, out),
        Err(_) => Answer::alone(alloc, Outcome::plain(alloc, Status::NoMemory)),
    }
}

/// Drives the C file of the accepted program of a small tree, and tells what came of it.
fn report_of(
    alloc: Global,
    accepted: &AcceptedSource,
    ticks: u32,
    names: &[u32],
    plants: &mut Vec<Box<dyn Plant>>,
) -> Result<Report, NoMemory>
    requires { IsOfSmallTree accepted.now.program }
    ensures report { IfOk result (TellsReport accepted.now.program.structs accepted.now.program.units accepted.now.program.entry
        (record { before = map (λ b. shown b) plants.old.items; after = map (λ b. shown b) plants.new.items }) ticks names.now) }
    ensures left { IfErr result (λ e. MayHaveDriven accepted.now.program.structs accepted.now.program.units accepted.now.program.entry
        (record { before = map (λ b. shown b) plants.old.items; after = map (λ b. shown b) plants.new.items }) ticks names.now) }
{
    match runner_of(alloc, accepted) {
        Ok(runner) => run(alloc, runner, plants, names, ticks),
        Err(error) => Err(error),
    }
}

/// Writes what a drive shows. The lines of the plants that have finished are for `notes`.
fn write_report<O: Sink>(alloc: Global, report: Report, out: &mut O) -> Answer
    ensures writes { WritesReport report
        (output_of (O.faults out.old) (O.faults out.new) (O.held out.old) (O.held out.new)) result }
    ensures out_count { O.faults out.old ≤ O.faults out.new }
{
    match write_all(out, report.text.as_slice()) {
        Ok(()) => Answer {
            outcome: Outcome {
                status: status_at(report.end),
                line: report.line,
            },
            told: report.told,
        },
        Err(IoFault::Failed) => Answer::alone(alloc, Outcome::plain(alloc, Status::WriteFault)),
        Err(IoFault::NoMemory) => Answer::alone(alloc, Outcome::plain(alloc, Status::NoMemory)),
    }
}

/// The status of a drive that ended so.
fn status_at(end: End) -> Status
    ensures { result ≡ drive_status end }
{
    match end {
        End::Done => Status::Ok,
        End::Trapped => Status::Trapped,
        End::PlantFault => Status::PlantFault,
        End::PlantShape => Status::PlantShape,
        End::NoMemory => Status::NoMemory,
    }
}
