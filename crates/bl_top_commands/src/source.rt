//! Sources read and judged, as each command does that names one.

ghost use Rattle.std.specs.Prelude.{IfErr, IfOk, OnOk};
ghost use Rattle.bl_top_commands.specs.inner.Outcomes.{IsRefusedBy, IsTold, line_in};
ghost use Rattle.bl_top_commands.specs.Reads.{LeftBehind, source_limit};
ghost use Rattle.bl_top_commands.specs.Refusals.{IsNotAccepted, refusal_line};
ghost use Rattle.bl_top_commands.specs.Sources.{IsProgramOfSource};
ghost use Rattle.bl_io.specs.Count.{NeverFell};
ghost use Rattle.bl_io.specs.Left.{KeepsOthers, StandsFurther};

use crate::outcome::Outcome;
use crate::refusal::line;
use crate::status::Status;
use bl_io::{Files, IoFault, read_up_to};
use bl_module_files::FILE_LIMIT;
use bl_rules::{AcceptedSource, accept};
use bl_tree::{Place, Refusal, Rule};
use std::alloc::Global;

/// The program of a source that no rule refuses, or how the job ends.
pub fn accepted_of<F: Files>(
    alloc: Global,
    source: &str,
    files: &mut F,
) -> Result<AcceptedSource, Outcome>
    ensures program { IfOk result (λ accepted. IsProgramOfSource (F.left files.old source.now) accepted.program) }
    ensures behind { OnOk result (LeftBehind source_limit source.now (F.left files.old) (F.left files.new)) }
    ensures stopped { IfErr result (λ outcome. IsNotAccepted (F.left files.old source.now)
        (record { before = F.faults files.old source.now; after = F.faults files.new source.now }) outcome.status (line_in outcome)) }
    ensures further { StandsFurther source_limit (F.left files.old source.now) (F.left files.new source.now) }
    ensures others { KeepsOthers source.now (F.left files.old) (F.left files.new) }
    ensures file_counts { NeverFell (F.faults files.old) (F.faults files.new) }
{
    let bytes = match read_up_to(alloc, files, source, FILE_LIMIT) {
        Ok(bytes) => bytes,
        Err(IoFault::Failed) => return Err(Outcome::plain(alloc, Status::ReadFault)),
        Err(IoFault::NoMemory) => return Err(Outcome::plain(alloc, Status::NoMemory)),
    };
    match accept(alloc, &bytes) {
        Ok(accepted) => Ok(accepted),
        Err(refusal) => Err(refused(alloc, &refusal)),
    }
}

/// How a job ends whose source is refused.
pub fn refused(alloc: Global, refusal: &Refusal) -> Outcome
    ensures { IsRefusedBy refusal.now result }
{
    match refusal {
        Refusal::Rule { rule, place, also } => refused_by(alloc, *rule, *place, also),
        Refusal::NoMemory => Outcome::plain(alloc, Status::NoMemory),
    }
}

/// How a job ends whose source fails the rule at the place, with its further places.
pub fn refused_by(alloc: Global, rule: Rule, place: Place, also: &[Place]) -> Outcome
    ensures { IsTold Status.Refused (refusal_line rule place also.now) result }
{
    match line(alloc, rule, place, also) {
        Ok(line) => Outcome {
            status: Status::Refused,
            line,
        },
        Err(_) => Outcome::plain(alloc, Status::NoMemory),
    }
}
