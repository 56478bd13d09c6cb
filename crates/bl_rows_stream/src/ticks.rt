//! Ticks, and what is written of them.

ghost use Rattle.std.specs.Prelude.{◌≡◌, ◌++◌, ◌+◌, ◌<◌, ◌≤◌, [], ◌∷◌, length, true, false, IfOk, OnOk};
ghost use Rattle.bl_tree.specs.Ports.{RowsFit, row_fits};
ghost use Rattle.bl_ctext_semantics.specs.Cells.{inputs_of, outputs_of};
ghost use Rattle.bl_crun.specs.Running.{OutputsFit, after_tick};
ghost use Rattle.bl_rows.specs.Text.{line_text};
ghost use Rattle.bl_rows_stream.specs.Reports.{after_rows, count_text, end_text, report_from, report_header, tick_text, trace_from, unless_trap};
ghost use Rattle.bl_rows_stream.specs.inner.Ticks.{last_by};

use bl_crun::{Runner, TickAnswer};
use bl_rows::{TraceText, header};
use bl_tree::{Column, Last, List, NoMemory, Row};
use itoa::Buffer;
use std::alloc::Global;

/// What is written of a run.
#[derive(Clone, Copy, PartialEq, Eq, Debug)]
pub enum Report {
    /// The text of its trace.
    Trace,
    /// How many statements each tick executed.
    Counts,
    Nothing,
}

/// The ticks that were done so far.
#[derive(Drop)]
pub struct Ticks {
    /// What is written of them.
    pub report: Report,
    pub done: u32,
    /// The outputs of the last one.
    pub outputs: Row,
}

/// What is written before the first tick.
pub fn heading(alloc: Global, report: Report, outs: &List<Column>) -> Result<Vec<u8>, NoMemory>
    ensures { IfOk result (λ text. text.items ≡ report_header report outs.now) }
{
    match report {
        Report::Trace => header(alloc, outs),
        Report::Counts => Ok(Vec::from_slice(alloc, b"tick,statements\n")?),
        Report::Nothing => Ok(Vec::new(alloc)),
    }
}

/// Does the ticks of rows until one ends the run or traps, and appends what is written of them.
pub fn run(
    runner: &mut Runner,
    rows: &[Row],
    ticks: &mut Ticks,
    text: &mut TraceText,
) -> Result<Last, NoMemory>
    requires fit { RowsFit (inputs_of runner.old.parts) rows.now }
    requires live { runner.old.live ≡ true }
    requires long { length ticks.old.outputs ≡ length (outputs_of runner.old.parts) }
    requires few { ticks.old.done + length rows.now ≤ 1000000 }
    ensures last { IfOk result (λ last. last ≡ (trace_from runner.old rows.now).last) }
    ensures text { OnOk result (text.new ≡ text.old ++ report_from ticks.old.report (ticks.old.done + 1) runner.old rows.now) }
    ensures after { IfOk result (λ last. last ≡ Last.Open → runner.new ≡ after_rows runner.old rows.now) }
    ensures live { IfOk result (λ last. last ≡ Last.Open → runner.new.live ≡ true) }
    ensures over { IfOk result (λ last. (last ≡ Last.Open → ⊥) → runner.new.live ≡ false) }
    ensures parts { OnOk result (runner.new.parts ≡ runner.old.parts) }
    ensures done { IfOk result (λ last. last ≡ Last.Open → ticks.new.done ≡ ticks.old.done + length rows.now) }
    ensures report { OnOk result (ticks.new.report ≡ ticks.old.report) }
    ensures long { OnOk result (length ticks.new.outputs ≡ length (outputs_of runner.old.parts)) }
{
    'rows: for row in rows {
        let last = tick(runner, row, ticks, text)?;
        if last != Last::Open {
            return Ok(last);
        }
    }
    Ok(Last::Open)
}

// Does a tick, and appends what is written of it.
fn tick(
    runner: &mut Runner,
    ins: &Row,
    ticks: &mut Ticks,
    text: &mut TraceText,
) -> Result<Last, NoMemory>
    requires fits { row_fits (inputs_of runner.old.parts) ins.now ≡ true }
    requires live { runner.old.live ≡ true }
    requires long { length ticks.old.outputs ≡ length (outputs_of runner.old.parts) }
    requires few { ticks.old.done < 1000000 }
    ensures last { IfOk result (λ last. last ≡ (trace_from runner.old (ins.now ∷ [])).last) }
    ensures text { OnOk result (text.new ≡ text.old ++ report_from ticks.old.report (ticks.old.done + 1) runner.old (ins.now ∷ [])) }
    ensures after { OnOk result (runner.new ≡ after_tick runner.old ins.now) }
    ensures live { IfOk result (λ last. last ≡ Last.Open → runner.new.live ≡ true) }
    ensures over { IfOk result (λ last. (last ≡ Last.Open → ⊥) → runner.new.live ≡ false) }
    ensures done { OnOk result (ticks.new.done ≡ ticks.old.done + 1) }
    ensures report { OnOk result (ticks.new.report ≡ ticks.old.report) }
    ensures long { OnOk result (length ticks.new.outputs ≡ length (outputs_of runner.old.parts)) }
{
    ticks.done += 1;
    let mut count = 0;
    let answer = runner.tick_counted(ins, &mut ticks.outputs, &mut count);
    append_tick(runner.outputs(), ticks, answer, count, text)?;
    Ok(last_of(answer))
}

// Whether a run goes on behind a tick.
fn last_of(answer: TickAnswer) -> Last
    ensures { result ≡ last_by answer }
{
    match answer {
        TickAnswer::Row => Last::Open,
        TickAnswer::Ended => Last::Ended,
        TickAnswer::Trap => Last::Trap,
    }
}

// Appends what is written of the last tick.
fn append_tick(
    outs: &List<Column>,
    ticks: &Ticks,
    answer: TickAnswer,
    count: u128,
    text: &mut TraceText,
) -> Result<(), NoMemory>
    requires fits { OutputsFit outs.now answer ticks.now.outputs }
    ensures { OnOk result (text.new ≡ text.old ++ tick_text ticks.now.report ticks.now.done outs.now answer ticks.now.outputs count) }
{
    match ticks.report {
        Report::Trace => append_outputs(outs, ticks, answer, text),
        Report::Counts => append_count(ticks.done, count, answer, text),
        Report::Nothing => Ok(()),
    }
}

// Appends the line of the last tick's outputs, and the word that follows it where the run doesn't go on.
fn append_outputs(
    outs: &List<Column>,
    ticks: &Ticks,
    answer: TickAnswer,
    text: &mut TraceText,
) -> Result<(), NoMemory>
    requires fits { OutputsFit outs.now answer ticks.now.outputs }
    ensures { OnOk result (text.new ≡ text.old
        ++ (unless_trap answer (line_text ticks.now.done outs.now ticks.now.outputs) ++ end_text answer)) }
{
    match answer {
        TickAnswer::Row => append_line(outs, ticks, text),
        TickAnswer::Ended => {
            append_line(outs, ticks, text)?;
            append_end(answer, text)
        }
        TickAnswer::Trap => append_end(answer, text),
    }
}

fn append_line(outs: &List<Column>, ticks: &Ticks, text: &mut TraceText) -> Result<(), NoMemory>
    requires fits { row_fits outs.now ticks.now.outputs ≡ true }
    ensures { OnOk result (text.new ≡ text.old ++ line_text ticks.now.done outs.now ticks.now.outputs) }
{
    Ok(text.append_line(ticks.done, outs, &ticks.outputs)?)
}

// The same of its count.
fn append_count(
    tick: u32,
    count: u128,
    answer: TickAnswer,
    text: &mut TraceText,
) -> Result<(), NoMemory>
    ensures { OnOk result (text.new ≡ text.old ++ (count_text tick count ++ end_text answer)) }
{
    let mut buffer = Buffer::new();
    text.append(buffer.format(tick).as_bytes())?;
    text.append(b",")?;
    text.append(buffer.format(count).as_bytes())?;
    text.append(b"\n")?;
    append_end(answer, text)
}

fn append_end(answer: TickAnswer, text: &mut TraceText) -> Result<(), NoMemory>
    ensures { OnOk result (text.new ≡ text.old ++ end_text answer) }
{
    match answer {
        TickAnswer::Row => Ok(()),
        TickAnswer::Ended => Ok(text.append(b"ended\n")?),
        TickAnswer::Trap => Ok(text.append(b"trap\n")?),
    }
}
