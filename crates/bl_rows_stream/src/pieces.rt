//! Pieces of the file: their rows are read and run, one piece after another.

ghost use Rattle.std.specs.Prelude.{◌≡◌, ◌⊎◌, ◌+◌, ◌++◌, ◌<◌, ◌≤◌, ℕ, List, [], Option, length};
ghost use Rattle.std.specs.Prelude.{None, Some, true, false, IfErr, IfOk, IfSome, IsErrOf, OnErr, OnOk};
ghost use Rattle.bl_ctext_semantics.specs.Cells.{inputs_of, outputs_of};
ghost use Rattle.bl_io.specs.Count.{NeverFell, Rose};
ghost use Rattle.bl_io.specs.Held.{Appends};
ghost use Rattle.bl_io.specs.Left.{HandsOver, KeepsOthers};
ghost use Rattle.bl_io.specs.declared.pieces.TheConstants.{PIECE};
ghost use Rattle.bl_rows.specs.Reading.{fault_in, led_by_rows, most_lines, read_on, rows_after, rows_in};
ghost use Rattle.bl_rows_stream.specs.Reports.{after_rows, report_from, trace_from};
ghost use Rattle.bl_rows_stream.specs.Streams.{AppendsFront, Extends, KeepsUp, ReadsLines, Reported};
ghost use Rattle.bl_rows_stream.specs.inner.Going.{RunEnds, Going, GoesOrEnds, Leaves, RunStands, Start, reach, runner_at};
ghost use Rattle.bl_tree.specs.Ports.{RowsFit};

use crate::finish::{Finish, Progress, finish_by, progress_by};
use crate::ticks::{Report, Ticks, run};
use bl_crun::Runner;
use bl_io::{Files, IoFault, PIECE, Sink, write_all};
use bl_rows::{RowFault, Rows, TraceText};
use bl_tree::{Last, NoMemory, Row};
use std::alloc::Global;

/// What goes on from piece to piece.
#[derive(Drop)]
pub struct Session {
    pub reader: Rows,
    pub ticks: Ticks,
    /// Room for what is written of the ticks of a piece.
    pub text: TraceText,
}

/// Runs the rows of what is left of the file.
pub fn run_all<F: Files, O: Sink>(
    alloc: Global,
    runner: &mut Runner,
    session: &mut Session,
    name: &str,
    files: &mut F,
    out: &mut O,
) -> Finish
    requires begun { (report : Report) × (start : Start) × (before : Option (List ℕ)) ×
        RunStands report start runner.old.parts [] before session.old runner.old (O.held out.old) }
    ensures reported { (report : Report) (start : Start) (before : Option (List ℕ)) →
        RunStands report start runner.old.parts [] before session.old runner.old (O.held out.old) →
        Reported report (runner_at start runner.old.parts) (F.left files.old name.now) (F.left files.new name.now) before (O.held out.new) runner.new result }
    ensures reads { ReadsLines most_lines (F.left files.old name.now) (F.left files.new name.now) }
    ensures read_fault { result ≡ Finish.ReadFault → Rose (F.faults files.old name.now) (F.faults files.new name.now) }
    ensures write_fault { result ≡ Finish.WriteFault → Rose (O.faults out.old) (O.faults out.new) }
    ensures others { KeepsOthers name.now (F.left files.old) (F.left files.new) }
    ensures file_counts { NeverFell (F.faults files.old) (F.faults files.new) }
    ensures out_count { O.faults out.old ≤ O.faults out.new }
    ensures keeps_up { (report : Report) (start : Start) (before : Option (List ℕ)) →
        RunStands report start runner.old.parts [] before session.old runner.old (O.held out.old) →
        KeepsUp report (runner_at start runner.old.parts) (F.left files.old name.now) (F.left files.new name.now) before (O.held out.new) }
{
    let mut room = [0; PIECE];
    'pieces: loop {
        match run_next(alloc, runner, session, name, &mut room, files, out) {
            Progress::Open => {}
            Progress::Over(finish) => return finish,
        }
    }
}

// Reads a piece and runs its rows, or those of the file's end.
fn run_next<F: Files, O: Sink>(
    alloc: Global,
    runner: &mut Runner,
    session: &mut Session,
    name: &str,
    room: &mut [u8],
    files: &mut F,
    out: &mut O,
) -> Progress
    requires room { 0 < length room.old }
    requires short { length room.old ≤ PIECE }
    requires going { (report : Report) × (start : Start) × (all : Option (List ℕ)) × (before : Option (List ℕ)) ×
        Going report start runner.old.parts all before session.old runner.old (F.left files.old name.now) (O.held out.old) }
    ensures further { result ≡ Progress.Open → reach session.old.reader < reach session.new.reader }
    ensures left { (report : Report) (start : Start) (all before : Option (List ℕ)) →
        Going report start runner.old.parts all before session.old runner.old (F.left files.old name.now) (O.held out.old) →
        GoesOrEnds report start runner.old.parts all before session.new runner.new (F.left files.new name.now) (O.held out.new) result }
    ensures reads { (report : Report) (start : Start) (all before : Option (List ℕ)) →
        Going report start runner.old.parts all before session.old runner.old (F.left files.old name.now) (O.held out.old) →
        ReadsLines most_lines all (F.left files.new name.now) }
    ensures read_fault { result ≡ Progress.Over Finish.ReadFault → Rose (F.faults files.old name.now) (F.faults files.new name.now) }
    ensures write_fault { result ≡ Progress.Over Finish.WriteFault → Rose (O.faults out.old) (O.faults out.new) }
    ensures others { KeepsOthers name.now (F.left files.old) (F.left files.new) }
    ensures file_counts { NeverFell (F.faults files.old) (F.faults files.new) }
    ensures out_count { O.faults out.old ≤ O.faults out.new }
    ensures keeps_up { (report : Report) (start : Start) (all before : Option (List ℕ)) →
        Going report start runner.old.parts all before session.old runner.old (F.left files.old name.now) (O.held out.old) →
        KeepsUp report (runner_at start runner.old.parts) all (F.left files.new name.now) before (O.held out.new) }
{
    match read_next(&session.reader, name, room, files) {
        Ok(0) => Progress::Over(run_last(alloc, runner, session, out)),
        Ok(n) => run_piece(alloc, runner, session, &room[..n], out),
        Err(IoFault::Failed) => Progress::Over(Finish::ReadFault),
        Err(IoFault::NoMemory) => Progress::Over(Finish::NoMemory),
    }
}

/// Fills a front of a room with the next bytes of a file of rows: with as few as can't begin a line behind line 1,000,001.
pub fn read_next<F: Files>(
    reader: &Rows,
    name: &str,
    room: &mut [u8],
    files: &mut F,
) -> Result<usize, IoFault>
    requires { 0 < length room.old }
    ensures bound { IfOk result (λ n. n ≤ length room.old) }
    ensures few { IfOk result (λ n. reader.now.at.lines + n ≤ 1000001) }
    ensures front { IfOk result (λ n. HandsOver (F.left files.old name.now) n room.new (F.left files.new name.now)) }
    ensures err { OnErr result (F.left files.new name.now ≡ F.left files.old name.now) }
    ensures others { KeepsOthers name.now (F.left files.old) (F.left files.new) }
    ensures counts { NeverFell (F.faults files.old) (F.faults files.new) }
    ensures failed { IsErrOf result IoFault.Failed → Rose (F.faults files.old name.now) (F.faults files.new name.now) }
{
    let most = room.len().min(1_000_001 - reader.lines() as usize);
    files.next(name, &mut room[..most])
}

// Runs the rows that a piece makes whole.
fn run_piece<O: Sink>(
    alloc: Global,
    runner: &mut Runner,
    session: &mut Session,
    piece: &[u8],
    out: &mut O,
) -> Progress
    requires stands { (report : Report) × (start : Start) × (read : List ℕ) × (before : Option (List ℕ)) ×
        RunStands report start runner.old.parts read before session.old runner.old (O.held out.old) }
    ensures further { result ≡ Progress.Open → reach session.old.reader + length piece.now ≤ reach session.new.reader }
    ensures left { (report : Report) (start : Start) (read : List ℕ) (before : Option (List ℕ)) →
        RunStands report start runner.old.parts read before session.old runner.old (O.held out.old) →
        Leaves report start runner.old.parts (read ++ piece.now) before session.new runner.new (O.held out.new) result }
    ensures write_fault { result ≡ Progress.Over Finish.WriteFault → Rose (O.faults out.old) (O.faults out.new) }
    ensures out_count { O.faults out.old ≤ O.faults out.new }
    ensures grows { Extends (O.held out.old) [] (O.held out.new) }
{
    let mut rows = Vec::new(alloc);
    let Ok(fault) = feed(&mut session.reader, piece, &mut rows) else {
        return Progress::Over(Finish::NoMemory);
    };
    match run_and_write(runner, &rows, &mut session.ticks, &mut session.text, out) {
        Ok(last) => progress_by(last, fault),
        Err(finish) => Progress::Over(finish),
    }
}

// Runs the row of a last line without a line feed, where there is one.
fn run_last<O: Sink>(
    alloc: Global,
    runner: &mut Runner,
    session: &mut Session,
    out: &mut O,
) -> Finish
    requires stands { (report : Report) × (start : Start) × (read : List ℕ) × (before : Option (List ℕ)) ×
        RunStands report start runner.old.parts read before session.old runner.old (O.held out.old) }
    ensures ends { (report : Report) (start : Start) (read : List ℕ) (before : Option (List ℕ)) →
        RunStands report start runner.old.parts read before session.old runner.old (O.held out.old) →
        RunEnds report (runner_at start runner.old.parts) read before (O.held out.new) runner.new result }
    ensures write_fault { result ≡ Finish.WriteFault → Rose (O.faults out.old) (O.faults out.new) }
    ensures out_count { O.faults out.old ≤ O.faults out.new }
    ensures grows { Extends (O.held out.old) [] (O.held out.new) }
{
    let mut rows = Vec::new(alloc);
    let Ok(fault) = finish(&mut session.reader, &mut rows) else {
        return Finish::NoMemory;
    };
    match run_and_write(runner, &rows, &mut session.ticks, &mut session.text, out) {
        Ok(last) => finish_by(last, fault),
        Err(ended) => ended,
    }
}

/// Appends the rows that a piece makes whole, and gives the fault of the piece. Want of memory is kept apart.
pub fn feed(
    reader: &mut Rows,
    piece: &[u8],
    rows: &mut Vec<Row>,
) -> Result<Option<RowFault>, NoMemory>
    requires { reader.old.ended ≡ false }
    ensures fault { IfOk result (λ fault. fault ≡ fault_in reader.old piece.now) }
    ensures rows { OnOk result (rows.new.items ≡ rows.old.items ++ rows_in reader.old piece.now) }
    ensures state { IfOk result (λ fault. fault ≡ None → reader.new ≡ read_on reader.old piece.now) }
    ensures short { length reader.new.line ≤ 65536 }
    ensures any_cut { OnOk result ((rest : List ℕ) → rows_after reader.old (piece.now ++ rest)
        ≡ led_by_rows (rows_in reader.old piece.now) (rows_after reader.new rest)) }
    ensures joins { IfOk result (λ fault. fault ≡ None → (more : List ℕ)
        → (rows_in reader.old (piece.now ++ more) ≡ rows_in reader.old piece.now ++ rows_in reader.new more)
        × (fault_in reader.old (piece.now ++ more) ≡ fault_in reader.new more)) }
    ensures stop { IfOk result (λ fault. IfSome fault (λ f. reader.new.stop ≡ Some f)) }
    ensures unended { reader.new.ended ≡ false }
{
    match reader.feed(piece, rows) {
        Ok(()) => Ok(None),
        Err(RowFault::NoMemory) => Err(NoMemory),
        Err(fault) => Ok(Some(fault)),
    }
}

/// Appends the row of the unfinished line, and gives the fault of the file that ends here.
pub fn finish(reader: &mut Rows, rows: &mut Vec<Row>) -> Result<Option<RowFault>, NoMemory>
    requires { reader.old.ended ≡ false }
    ensures fault { IfOk result (λ fault. fault ≡ (rows_after reader.old []).fault) }
    ensures rows { OnOk result (rows.new.items ≡ rows.old.items ++ (rows_after reader.old []).rows) }
{
    match reader.finish(rows) {
        Ok(()) => Ok(None),
        Err(RowFault::NoMemory) => Err(NoMemory),
        Err(fault) => Ok(Some(fault)),
    }
}

// Does the ticks of rows until one ends the run or traps, and writes what is to be written of them.
fn run_and_write<O: Sink>(
    runner: &mut Runner,
    rows: &[Row],
    ticks: &mut Ticks,
    text: &mut TraceText,
    out: &mut O,
) -> Result<Last, Finish>
    requires fit { RowsFit (inputs_of runner.old.parts) rows.now }
    requires live { runner.old.live ≡ true }
    requires long { length ticks.old.outputs ≡ length (outputs_of runner.old.parts) }
    requires few { ticks.old.done + length rows.now ≤ 1000000 }
    ensures last { IfOk result (λ last. last ≡ (trace_from runner.old rows.now).last) }
    ensures all { OnOk result (Appends (O.held out.old) (report_from ticks.old.report (ticks.old.done + 1) runner.old rows.now) (O.held out.new)) }
    ensures after { IfOk result (λ last. last ≡ Last.Open → runner.new ≡ after_rows runner.old rows.now) }
    ensures live { IfOk result (λ last. last ≡ Last.Open → runner.new.live ≡ true) }
    ensures over { IfOk result (λ last. (last ≡ Last.Open → ⊥) → runner.new.live ≡ false) }
    ensures parts { OnOk result (runner.new.parts ≡ runner.old.parts) }
    ensures done { IfOk result (λ last. last ≡ Last.Open → ticks.new.done ≡ ticks.old.done + length rows.now) }
    ensures report { OnOk result (ticks.new.report ≡ ticks.old.report) }
    ensures long { OnOk result (length ticks.new.outputs ≡ length (outputs_of runner.old.parts)) }
    ensures front { OnErr result (AppendsFront (O.held out.old) (report_from ticks.old.report (ticks.old.done + 1) runner.old rows.now)
        (O.held out.new)) }
    ensures why { IfErr result (λ f. (f ≡ Finish.WriteFault) ⊎ (f ≡ Finish.NoMemory)) }
    ensures failed { IsErrOf result Finish.WriteFault → Rose (O.faults out.old) (O.faults out.new) }
    ensures count { O.faults out.old ≤ O.faults out.new }
{
    text.clear();
    let Ok(last) = run(runner, rows, ticks, text) else {
        return Err(Finish::NoMemory);
    };
    match write(out, text.as_slice()) {
        Ok(()) => Ok(last),
        Err(finish) => Err(finish),
    }
}

/// Writes a text, or answers how the run ends.
pub fn write<O: Sink>(out: &mut O, text: &[u8]) -> Result<(), Finish>
    ensures all { OnOk result (Appends (O.held out.old) text.now (O.held out.new)) }
    ensures front { OnErr result (AppendsFront (O.held out.old) text.now (O.held out.new)) }
    ensures why { IfErr result (λ f. (f ≡ Finish.WriteFault) ⊎ (f ≡ Finish.NoMemory)) }
    ensures failed { IsErrOf result Finish.WriteFault → Rose (O.faults out.old) (O.faults out.new) }
    ensures count { O.faults out.old ≤ O.faults out.new }
{
    match write_all(out, text) {
        Ok(()) => Ok(()),
        Err(IoFault::Failed) => Err(Finish::WriteFault),
        Err(IoFault::NoMemory) => Err(Finish::NoMemory),
    }
}
