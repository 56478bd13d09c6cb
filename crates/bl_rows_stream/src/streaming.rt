//! Runs over files of rows, from the first piece to the end.

ghost use Rattle.std.specs.Prelude.{◌≡◌, ◌≢◌, ◌⊎◌, ◌<◌, ◌≤◌, [], length, take, None, true, IfErr, IfOk, IsErrOf, OnErr};
ghost use Rattle.std.specs.Prelude.{List, Option, ℕ};
ghost use Rattle.bl_ctext_semantics.specs.Cells.{inputs_of, outputs_of};
ghost use Rattle.bl_io.specs.Count.{NeverFell, Rose};
ghost use Rattle.bl_io.specs.Held.{Appends};
ghost use Rattle.bl_io.specs.Left.{KeepsOthers};
ghost use Rattle.bl_rows.specs.Reading.{empty_reading, most_lines};
ghost use Rattle.bl_rows_stream.specs.inner.Going.{RunEnds, HasFed, RunStands, runner_start};
ghost use Rattle.bl_rows_stream.specs.Streams.{InStep, ReadsLines, Reported, Streamed, course_from};

use crate::finish::Finish;
use crate::pieces::{Session, run_all, write};
use crate::ticks::{Report, Ticks, heading};
use bl_crun::Runner;
use bl_io::{Files, IoFault, Sink};
use bl_rows::{Rows, TraceText};
use bl_tree::{NoMemory, Row};
use std::alloc::Global;

/// Runs a live runner over the rows of the named file, and writes the text of its trace: the header before anything is
/// read, and the lines of the ticks of a piece before the next piece is read.
pub fn stream<F: Files, O: Sink>(
    alloc: Global,
    runner: &mut Runner,
    rows: &str,
    files: &mut F,
    out: &mut O,
) -> Finish
    requires live { runner.old.live ≡ true }
    ensures streamed { Streamed (course_from runner.old) (F.left files.old rows.now) (F.left files.new rows.now) (O.held out.old) (O.held out.new) result }
    ensures reported { Reported Report.Trace runner.old (F.left files.old rows.now) (F.left files.new rows.now) (O.held out.old) (O.held out.new)
        runner.new result }
    ensures reads { ReadsLines most_lines (F.left files.old rows.now) (F.left files.new rows.now) }
    ensures read_fault { result ≡ Finish.ReadFault → Rose (F.faults files.old rows.now) (F.faults files.new rows.now) }
    ensures write_fault { result ≡ Finish.WriteFault → Rose (O.faults out.old) (O.faults out.new) }
    ensures others { KeepsOthers rows.now (F.left files.old) (F.left files.new) }
    ensures file_counts { NeverFell (F.faults files.old) (F.faults files.new) }
    ensures out_count { O.faults out.old ≤ O.faults out.new }
    ensures in_step { InStep Report.Trace runner.old (F.left files.old rows.now) (F.left files.new rows.now) (O.held out.old) (O.held out.new) }
{
    run_report(alloc, runner, Report::Trace, rows, files, out)
}

/// Runs a live runner over the rows of the named file, and writes how many statements each tick executed.
pub fn count<F: Files, O: Sink>(
    alloc: Global,
    runner: &mut Runner,
    rows: &str,
    files: &mut F,
    out: &mut O,
) -> Finish
    requires live { runner.old.live ≡ true }
    ensures reported { Reported Report.Counts runner.old (F.left files.old rows.now) (F.left files.new rows.now) (O.held out.old) (O.held out.new)
        runner.new result }
    ensures reads { ReadsLines most_lines (F.left files.old rows.now) (F.left files.new rows.now) }
    ensures read_fault { result ≡ Finish.ReadFault → Rose (F.faults files.old rows.now) (F.faults files.new rows.now) }
    ensures write_fault { result ≡ Finish.WriteFault → Rose (O.faults out.old) (O.faults out.new) }
    ensures others { KeepsOthers rows.now (F.left files.old) (F.left files.new) }
    ensures file_counts { NeverFell (F.faults files.old) (F.faults files.new) }
    ensures out_count { O.faults out.old ≤ O.faults out.new }
    ensures in_step { InStep Report.Counts runner.old (F.left files.old rows.now) (F.left files.new rows.now) (O.held out.old) (O.held out.new) }
{
    run_report(alloc, runner, Report::Counts, rows, files, out)
}

/// Runs a live runner over the rows of the named file, and writes nothing.
pub fn run_silently<F: Files>(
    alloc: Global,
    runner: &mut Runner,
    rows: &str,
    files: &mut F,
) -> Finish
    requires live { runner.old.live ≡ true }
    ensures reported { Reported Report.Nothing runner.old (F.left files.old rows.now) (F.left files.new rows.now) None None runner.new result }
    ensures reads { ReadsLines most_lines (F.left files.old rows.now) (F.left files.new rows.now) }
    ensures read_fault { result ≡ Finish.ReadFault → Rose (F.faults files.old rows.now) (F.faults files.new rows.now) }
    ensures no_write { result ≢ Finish.WriteFault }
    ensures others { KeepsOthers rows.now (F.left files.old) (F.left files.new) }
    ensures file_counts { NeverFell (F.faults files.old) (F.faults files.new) }
{
    run_report(alloc, runner, Report::Nothing, rows, files, &mut Silence)
}

// Takes every piece, and keeps none.
#[derive(Drop)]
struct Silence;

impl Sink for Silence {
    ghost held = { λ _. None };

    ghost faults = { λ _. 0 };

    fn write(&mut self, piece: &[u8]) -> Result<usize, IoFault>
        requires { 0 < length piece.now }
        ensures some { IfOk result (λ n. 0 < n) }
        ensures bound { IfOk result (λ n. n ≤ length piece.now) }
        ensures front { IfOk result (λ n. Appends None (take n piece.now) None) }
        ensures err { OnErr result (◌≡◌ {A = Option (List ℕ)} None None) }
        ensures counts { 0 ≤ 0 }
        ensures failed { IsErrOf result IoFault.Failed → Rose 0 0 }
    {
        Ok(piece.len())
    }
}

// Runs a live runner over the rows of the named file, and writes what is to be written of it.
fn run_report<F: Files, O: Sink>(
    alloc: Global,
    runner: &mut Runner,
    report: Report,
    rows: &str,
    files: &mut F,
    out: &mut O,
) -> Finish
    requires live { runner.old.live ≡ true }
    ensures reported { Reported report runner.old (F.left files.old rows.now) (F.left files.new rows.now) (O.held out.old) (O.held out.new)
        runner.new result }
    ensures reads { ReadsLines most_lines (F.left files.old rows.now) (F.left files.new rows.now) }
    ensures read_fault { result ≡ Finish.ReadFault → Rose (F.faults files.old rows.now) (F.faults files.new rows.now) }
    ensures write_fault { result ≡ Finish.WriteFault → Rose (O.faults out.old) (O.faults out.new) }
    ensures others { KeepsOthers rows.now (F.left files.old) (F.left files.new) }
    ensures file_counts { NeverFell (F.faults files.old) (F.faults files.new) }
    ensures out_count { O.faults out.old ≤ O.faults out.new }
    ensures in_step { InStep report runner.old (F.left files.old rows.now) (F.left files.new rows.now) (O.held out.old) (O.held out.new) }
{
    match begin(alloc, runner, report, out) {
        Ok(mut session) => run_all(alloc, runner, &mut session, rows, files, out),
        Err(finish) => finish,
    }
}

// Takes what is needed before the first piece, and writes what comes before the first tick.
fn begin<O: Sink>(
    alloc: Global,
    runner: &Runner,
    report: Report,
    out: &mut O,
) -> Result<Session, Finish>
    requires live { runner.now.live ≡ true }
    ensures stands { IfOk result (λ session. RunStands report (runner_start runner.now) runner.now.parts [] (O.held out.old) session runner.now
        (O.held out.new)) }
    ensures ends { IfErr result (λ f. (bytes : List ℕ) → RunEnds report runner.now bytes (O.held out.old) (O.held out.new) runner.now f) }
    ensures why { IfErr result (λ f. (f ≡ Finish.WriteFault) ⊎ (f ≡ Finish.NoMemory)) }
    ensures failed { IsErrOf result Finish.WriteFault → Rose (O.faults out.old) (O.faults out.new) }
    ensures out_count { O.faults out.old ≤ O.faults out.new }
{
    let Ok(session) = first_session(alloc, runner, report) else {
        return Err(Finish::NoMemory);
    };
    let Ok(text) = heading(alloc, report, runner.outputs()) else {
        return Err(Finish::NoMemory);
    };
    match write(out, text.as_slice()) {
        Ok(()) => Ok(session),
        Err(finish) => Err(finish),
    }
}

// A reader that has read nothing, and a row for the outputs.
fn first_session(alloc: Global, runner: &Runner, report: Report) -> Result<Session, NoMemory>
    ensures begun { IfOk result (λ session. session.reader ≡ empty_reading (inputs_of runner.now.parts)) }
    ensures fed { IfOk result (λ session. HasFed (inputs_of runner.now.parts) [] session.reader) }
    ensures done { IfOk result (λ session. session.ticks.done ≡ 0) }
    ensures report { IfOk result (λ session. session.ticks.report ≡ report) }
    ensures outputs { IfOk result (λ session. length session.ticks.outputs ≡ length (outputs_of runner.now.parts)) }
{
    let Ok(outputs) = u32::try_from(runner.outputs().len()) else {
        return Err(NoMemory);
    };
    Ok(Session {
        reader: Rows::new(alloc, runner.inputs())?,
        ticks: Ticks {
            report,
            done: 0,
            outputs: Row::new(alloc, outputs)?,
        },
        text: TraceText::new(alloc),
    })
}
