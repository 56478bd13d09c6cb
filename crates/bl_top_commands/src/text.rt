//! C texts read and loaded, as each command does them that names one.

ghost use Rattle.std.specs.Prelude.{◌≡◌, ◌≤◌, length, IfErr, IfOk, OnOk};
ghost use Rattle.bl_top_commands.specs.Exec.{Rejects, TextStops};
ghost use Rattle.bl_top_commands.specs.inner.Outcomes.{IsEndAtLoad, IsEndAtText, IsTold, line_in};
ghost use Rattle.bl_top_commands.specs.inner.Texts.{HasLoaded, IsFileIn, IsFileOf};
ghost use Rattle.bl_top_commands.specs.Notes.{not_subset_line, too_large_line};
ghost use Rattle.bl_top_commands.specs.Reads.{LeftBehind, text_limit};
ghost use Rattle.bl_crun.specs.Running.{loaded};
ghost use Rattle.bl_io.specs.Count.{NeverFell};
ghost use Rattle.bl_io.specs.Left.{KeepsOthers, StandsFurther};

use crate::outcome::Outcome;
use crate::status::Status;
use bl_bound_laws::texts_are_bounded;
use bl_cparse::{CRefusal, parse};
use bl_crun::{LoadFault, Runner};
use bl_ctext::CFile;
use bl_io::{Files, IoFault, read_up_to};
use std::alloc::Global;

/// How far a text is read: one byte past the longest that is run.
const LIMIT: usize = 67_108_865;

/// The file that a text spells, loaded, or how the job ends.
pub fn runner_of<F: Files>(alloc: Global, text: &str, files: &mut F) -> Result<Runner, Outcome>
    ensures loads { IfOk result (λ runner. HasLoaded (F.left files.old text.now) runner.parts) }
    ensures fresh { IfOk result (λ runner. runner ≡ loaded runner.parts) }
    ensures behind { OnOk result (LeftBehind text_limit text.now (F.left files.old) (F.left files.new)) }
    ensures stopped { IfErr result (λ outcome. TextStops (F.left files.old text.now)
        (record { before = F.faults files.old text.now; after = F.faults files.new text.now }) outcome.status (line_in outcome)) }
    ensures further { StandsFurther text_limit (F.left files.old text.now) (F.left files.new text.now) }
    ensures others { KeepsOthers text.now (F.left files.old) (F.left files.new) }
    ensures file_counts { NeverFell (F.faults files.old) (F.faults files.new) }
{
    let file = match file_of(alloc, text, files) {
        Ok(file) => file,
        Err(outcome) => return Err(outcome),
    };
    texts_are_bounded(&file);
    match Runner::load(alloc, file) {
        Ok(runner) => Ok(runner),
        Err((_, fault)) => Err(end_at_load(alloc, fault)),
    }
}

/// The file that a text spells, or how the job ends.
pub fn file_of<F: Files>(alloc: Global, text: &str, files: &mut F) -> Result<CFile, Outcome>
    ensures file { IfOk result (IsFileOf (F.left files.old text.now)) }
    ensures behind { OnOk result (LeftBehind text_limit text.now (F.left files.old) (F.left files.new)) }
    ensures stopped { IfErr result (λ outcome. TextStops (F.left files.old text.now)
        (record { before = F.faults files.old text.now; after = F.faults files.new text.now }) outcome.status (line_in outcome)) }
    ensures further { StandsFurther text_limit (F.left files.old text.now) (F.left files.new text.now) }
    ensures others { KeepsOthers text.now (F.left files.old) (F.left files.new) }
    ensures file_counts { NeverFell (F.faults files.old) (F.faults files.new) }
{
    let bytes = match read_up_to(alloc, files, text, LIMIT) {
        Ok(bytes) => bytes,
        Err(IoFault::Failed) => return Err(Outcome::plain(alloc, Status::ReadFault)),
        Err(IoFault::NoMemory) => return Err(Outcome::plain(alloc, Status::NoMemory)),
    };
    match file_in(alloc, &bytes) {
        Ok(file) => Ok(file),
        Err(outcome) => Err(outcome),
    }
}

fn file_in(alloc: Global, text: &[u8]) -> Result<CFile, Outcome>
    requires { length text.now ≤ text_limit }
    ensures file { IfOk result (IsFileIn text.now) }
    ensures rejected { IfErr result (λ outcome. Rejects text.now outcome.status (line_in outcome)) }
{
    if text.len() == LIMIT {
        return Err(too_large(alloc, 67_108_865));
    }
    match parse(alloc, text) {
        Ok(file) => Ok(file),
        Err(refusal) => Err(end_at_text(alloc, refusal)),
    }
}

/// How the job ends of a text that spells no file.
fn end_at_text(alloc: Global, refusal: CRefusal) -> Outcome
    ensures { IsEndAtText refusal result }
{
    match refusal {
        CRefusal::NotSubset { at } => not_subset(alloc, at),
        CRefusal::NoMemory => Outcome::plain(alloc, Status::NoMemory),
    }
}

/// How the job ends of a file that can't be loaded.
pub fn end_at_load(alloc: Global, fault: LoadFault) -> Outcome
    ensures { IsEndAtLoad fault result }
{
    match fault {
        LoadFault::IllFormed { at } => not_subset(alloc, at.start),
        LoadFault::TooLarge { cells } => too_large(alloc, cells),
        LoadFault::NoMemory => Outcome::plain(alloc, Status::NoMemory),
    }
}

fn not_subset(alloc: Global, at: u32) -> Outcome
    ensures { IsTold Status.NotSubset (not_subset_line at) result }
{
    Outcome::numbered(alloc, Status::NotSubset, "not subset: at ", u64::from(at))
}

/// How the job ends of what is too large, and how large that is.
pub fn too_large(alloc: Global, size: u64) -> Outcome
    ensures { IsTold Status.TooLarge (too_large_line size) result }
{
    Outcome::numbered(alloc, Status::TooLarge, "too large: ", size)
}
