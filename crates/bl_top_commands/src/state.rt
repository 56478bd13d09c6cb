//! Saved states, as each command reads or writes them that names one.

ghost use Rattle.std.specs.Prelude.{◌≡◌, ◌≤◌, ℤ, List, true, IfErr, OnOk};
ghost use Rattle.bl_ctext_semantics.specs.Parts.{Parts};
ghost use Rattle.bl_ctext_semantics.specs.Trace.{start_succeeds};
ghost use Rattle.bl_top_commands.specs.Calls.{output_of};
ghost use Rattle.bl_top_commands.specs.inner.Outcomes.{IsEndAtState, IsTold, line_in};
ghost use Rattle.bl_top_commands.specs.inner.Texts.{StandsAt};
ghost use Rattle.bl_top_commands.specs.Notes.{bad_state_line, line_of};
ghost use Rattle.bl_top_commands.specs.Reads.{LeftBehind, most_rows, state_limit};
ghost use Rattle.bl_top_commands.specs.Results.{WritesResult};
ghost use Rattle.bl_top_commands.specs.Save.{SavesOver, StateStops};
ghost use Rattle.bl_crun.specs.Running.{loaded};
ghost use Rattle.bl_io.specs.Count.{NeverFell};
ghost use Rattle.bl_io.specs.Left.{KeepsOthers, StandsFurther};
ghost use Rattle.bl_save.specs.States.{SavedState};
ghost use Rattle.bl_rows_stream.specs.Streams.{ReadsLines};
ghost use Rattle.bl_rows_stream_laws.specs.Resumed.{runner_from};

use crate::outcome::Outcome;
use crate::rows::end_of;
use crate::status::Status;
use crate::write::write_result;
use bl_crun::Runner;
use bl_io::{Files, IoFault, Sink, read_up_to};
use bl_rows_stream::{Finish, run_silently};
use bl_rows_stream_laws::silent_runs;
use bl_save::{StateFault, restore, save};
use std::alloc::Global;

/// How far a saved state is read: one byte past the longest of a file that can be loaded.
const LIMIT: usize = 8_000_011;

/// Sets the cells of a runner that was just loaded to those of the saved state in the named file, or says how the job
/// ends.
pub fn restore_from<F: Files>(
    alloc: Global,
    runner: &mut Runner,
    state: &str,
    files: &mut F,
) -> Result<(), Outcome>
    requires fresh { runner.old ≡ loaded runner.old.parts }
    ensures stands { OnOk result (StandsAt (F.left files.old state.now) runner.old.parts runner.new) }
    ensures behind { OnOk result (LeftBehind state_limit state.now (F.left files.old) (F.left files.new)) }
    ensures stopped { IfErr result (λ outcome. StateStops runner.old.parts (F.left files.old state.now)
        (record { before = F.faults files.old state.now; after = F.faults files.new state.now }) outcome.status (line_in outcome)) }
    ensures further { StandsFurther state_limit (F.left files.old state.now) (F.left files.new state.now) }
    ensures others { KeepsOthers state.now (F.left files.old) (F.left files.new) }
    ensures file_counts { NeverFell (F.faults files.old) (F.faults files.new) }
{
    let bytes = match read_up_to(alloc, files, state, LIMIT) {
        Ok(bytes) => bytes,
        Err(IoFault::Failed) => return Err(Outcome::plain(alloc, Status::ReadFault)),
        Err(IoFault::NoMemory) => return Err(Outcome::plain(alloc, Status::NoMemory)),
    };
    match restore(runner, &bytes) {
        Ok(()) => Ok(()),
        Err(fault) => Err(end_at_state(alloc, fault)),
    }
}

/// How the job ends of bytes that are no saved state.
fn end_at_state(alloc: Global, fault: StateFault) -> Outcome
    ensures { IsEndAtState fault result }
{
    match fault {
        StateFault::BadState { at } => bad_state(alloc, at),
    }
}

fn bad_state(alloc: Global, at: u32) -> Outcome
    ensures { IsTold Status.BadState (bad_state_line at) result }
{
    Outcome::numbered(alloc, Status::BadState, "bad state: at ", u64::from(at))
}

/// Runs a live runner whose start hasn't trapped over the rows of the named file, and writes the state after them.
pub fn save_over<F: Files, O: Sink>(
    alloc: Global,
    runner: Runner,
    rows: &str,
    files: &mut F,
    out: &mut O,
) -> Outcome
    requires stands { runner ≡ runner_from runner.parts runner.cells }
    requires ready { start_succeeds runner.parts ≡ true }
    ensures saves { SavesOver runner.parts runner.cells (F.left files.old rows.now) (F.left files.new rows.now)
        (record { before = F.faults files.old rows.now; after = F.faults files.new rows.now })
        (output_of (O.faults out.old) (O.faults out.new) (O.held out.old) (O.held out.new)) result.status (line_in result) }
    ensures reads { ReadsLines most_rows (F.left files.old rows.now) (F.left files.new rows.now) }
    ensures others { KeepsOthers rows.now (F.left files.old) (F.left files.new) }
    ensures file_counts { NeverFell (F.faults files.old) (F.faults files.new) }
    ensures out_count { O.faults out.old ≤ O.faults out.new }
{
    silent_runs();
    let mut runner = runner;
    match run_silently(alloc, &mut runner, rows, files) {
        Finish::Done => {
            if runner.live() {
                write_state(alloc, &runner, out)
            } else {
                Outcome::plain(alloc, Status::SaveEnded)
            }
        }
        finish => end_of(alloc, finish),
    }
}

fn write_state<O: Sink>(alloc: Global, runner: &Runner, out: &mut O) -> Outcome
    requires { start_succeeds runner.now.parts ≡ true }
    ensures writes { WritesResult (SavedState runner.now.parts runner.now.cells)
        (output_of (O.faults out.old) (O.faults out.new) (O.held out.old) (O.held out.new)) result.status }
    ensures line { line_in result ≡ line_of result.status }
    ensures out_count { O.faults out.old ≤ O.faults out.new }
{
    match save(alloc, runner) {
        Ok(bytes) => write_result(alloc, &bytes, out),
        Err(_) => Outcome::plain(alloc, Status::NoMemory),
    }
}
