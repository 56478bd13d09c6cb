//! Source files that are read, judged in turn and linked.

ghost use Rattle.std.specs.Prelude.{◌≤◌, length, map, string_bytes, IfErr, IfOk, Some};
ghost use Rattle.bl_io.specs.Count.{NeverFell};
ghost use Rattle.bl_link_files.specs.Programs.{IsProgramOfFiles};
ghost use Rattle.bl_rules_laws_sizes.specs.Small.{IsOfSmallTree};
ghost use Rattle.bl_top_args.specs.Jobs.{link};
ghost use Rattle.bl_top_commands.specs.Calls.{Output, call_of};
ghost use Rattle.bl_top_commands.specs.inner.Outcomes.{IsEndAtProgram, IsTold, line_in};
ghost use Rattle.bl_top_commands.specs.Linked.{AreNotLinked};
ghost use Rattle.bl_top_commands.specs.Reads.{Reads, files_read};
ghost use Rattle.bl_top_commands.specs.Refusals.{file_line, refusal_line};

use crate::outcome::Outcome;
use crate::refusal::line_in_file;
use crate::status::Status;
use bl_io::Files;
use bl_link_files::{ProgramFault, program_of_files};
use bl_rules::AcceptedSource;
use bl_tree::{Place, Rule};
use std::alloc::Global;

/// The program of source files that no rule refuses, or how the job ends.
pub fn linked_of<F: Files>(
    alloc: Global,
    sources: &[String],
    files: &mut F,
) -> Result<AcceptedSource, Outcome>
    requires some { 1 ≤ length sources.now }
    requires few { length sources.now ≤ 64 }
    ensures program { IfOk result (λ accepted. IsProgramOfFiles (F.left files.old) (map string_bytes sources.now) accepted.program) }
    ensures of_small_tree { IfOk result (λ accepted. IsOfSmallTree accepted.program) }
    ensures stopped { IfErr result (λ outcome. (out notes : Output) → AreNotLinked
        (call_of (F.left files.old) (F.left files.new) (F.faults files.old) (F.faults files.new) out notes)
        (map string_bytes sources.now) outcome.status (line_in outcome)) }
    ensures reads { Reads (files_read (Some (link (map string_bytes sources.now)))) (F.left files.old) (F.left files.new) }
    ensures file_counts { NeverFell (F.faults files.old) (F.faults files.new) }
{
    match program_of_files(alloc, sources, files) {
        Ok(accepted) => Ok(accepted),
        Err(fault) => Err(end_at_program(alloc, &fault)),
    }
}

/// How the job ends of source files that have no program.
fn end_at_program(alloc: Global, fault: &ProgramFault) -> Outcome
    ensures { IsEndAtProgram fault.now result }
{
    match fault {
        ProgramFault::Unread => Outcome::plain(alloc, Status::ReadFault),
        ProgramFault::InTurn {
            file,
            rule,
            place,
            also,
        } => refused_in(alloc, *file, *rule, *place, also),
        ProgramFault::Together { file, rule, place } => refused_in(
            alloc,
            *file,
            *rule,
            *place,
            &[],
        ),
        ProgramFault::NoMemory => Outcome::plain(alloc, Status::NoMemory),
    }
}

/// How a job ends whose file of this number fails the rule at the place, with its further places.
fn refused_in(alloc: Global, file: u32, rule: Rule, place: Place, also: &[Place]) -> Outcome
    ensures { IsTold Status.Refused (file_line file (refusal_line rule place also.now)) result }
{
    match line_in_file(alloc, file, rule, place, also) {
        Ok(line) => Outcome {
            status: Status::Refused,
            line,
        },
        Err(_) => Outcome::plain(alloc, Status::NoMemory),
    }
}
