//! The command `walk P ROWS SEED`.

ghost use Rattle.std.specs.Prelude.{◌≡◌, ◌≤◌, length, IfOk, Some};
ghost use Rattle.bl_top_commands.specs.Calls.{Output, call_of, output_of};
ghost use Rattle.bl_top_commands.specs.inner.Outcomes.{lines_in};
ghost use Rattle.bl_top_commands.specs.inner.Walked.{ArePorts, IsWalk, WalksRows, WritesWalk};
ghost use Rattle.bl_top_commands.specs.Reads.{Reads, files_read, most_rows};
ghost use Rattle.bl_top_commands.specs.Walk.{WalkEnds};
ghost use Rattle.bl_io.specs.Count.{NeverFell, Rose};
ghost use Rattle.bl_io.specs.Left.{KeepsOthers};
ghost use Rattle.bl_rows_stream.specs.Streams.{ReadsLines};
ghost use Rattle.bl_top_args.specs.Jobs.{walk};

use crate::answer::Answer;
use crate::outcome::Outcome;
use crate::rows::end_of;
use crate::source::accepted_of;
use crate::status::Status;
use bl_io::{Files, IoFault, Sink, write_all};
use bl_rows::{input_columns, output_columns, text};
use bl_rows_stream::laws::{rows_of_bytes_fit, rows_of_lines_fit};
use bl_rows_stream::{Finish, Gathering, finish_over, gather};
use bl_rules::AcceptedSource;
use bl_rules_laws::traces::accepted_trees_have_one_trace;
use bl_tree::{Column, List, NoMemory, Program};
use bl_walk::laws::{
    closed_runs_stay_closed, fronts_show_fronts, rows_bound_runs, walks_are_allowed,
};
use bl_walk::lines;
use std::alloc::Global;

/// The columns of a program's rows.
#[derive(Drop)]
struct Ports {
    ins: List<Column>,
    outs: List<Column>,
}

/// A walk that nothing was written of yet.
#[derive(Drop)]
struct Walked {
    /// The text of its trace.
    text: Vec<u8>,
    /// The lines of its steps.
    told: Vec<u8>,
    finish: Finish,
}

/// Walks the source file of this name over a file of rows, by a seed: reads all rows, then runs them, and writes the trace.
pub fn walk<F: Files, O: Sink>(
    alloc: Global,
    source: &str,
    rows: &str,
    seed: u64,
    files: &mut F,
    out: &mut O,
) -> Answer
    ensures ends { (notes : Output) → WalkEnds
        (call_of (F.left files.old) (F.left files.new) (F.faults files.old) (F.faults files.new)
        (output_of (O.faults out.old) (O.faults out.new) (O.held out.old) (O.held out.new)) notes)
        source.now rows.now seed result.outcome.status (lines_in result) }
    ensures reads { Reads (files_read (Some (walk source.now rows.now seed))) (F.left files.old) (F.left files.new) }
    ensures file_counts { NeverFell (F.faults files.old) (F.faults files.new) }
    ensures out_count { O.faults out.old ≤ O.faults out.new }
{
    accepted_trees_have_one_trace();
    walks_are_allowed();
    closed_runs_stay_closed();
    fronts_show_fronts();
    rows_of_bytes_fit();
    rows_of_lines_fit();
    let accepted = match accepted_of(alloc, source, files) {
        Ok(accepted) => accepted,
        Err(outcome) => return Answer::alone(alloc, outcome),
    };
    accepted.is_accepted();
    match walk_file(alloc, &accepted, rows, seed, files) {
        Ok(walk) => write_walk(alloc, walk, out),
        Err(_) => Answer::alone(alloc, Outcome::plain(alloc, Status::NoMemory)),
    }
}

/// Walks an accepted program over the rows of the named file.
fn walk_file<F: Files>(
    alloc: Global,
    accepted: &AcceptedSource,
    rows: &str,
    seed: u64,
    files: &mut F,
) -> Result<Walked, NoMemory>
    ensures walk { IfOk result (λ w. IsWalk accepted.now.program.structs accepted.now.program.units accepted.now.program.entry
        (F.left files.old rows.now) (F.left files.new rows.now) seed w.text.items w.told.items w.finish) }
    ensures reads { ReadsLines most_rows (F.left files.old rows.now) (F.left files.new rows.now) }
    ensures read_fault { IfOk result (λ w. w.finish ≡ Finish.ReadFault → Rose (F.faults files.old rows.now) (F.faults files.new rows.now)) }
    ensures others { KeepsOthers rows.now (F.left files.old) (F.left files.new) }
    ensures file_counts { NeverFell (F.faults files.old) (F.faults files.new) }
{
    let ports = ports_of(alloc, accepted.program())?;
    let gathering = gather(alloc, &ports.ins, rows, files)?;
    walk_rows(alloc, accepted, &ports.outs, &gathering, seed)
}

/// The columns of a program's inputs and outputs.
fn ports_of(alloc: Global, program: &Program) -> Result<Ports, NoMemory>
    ensures { IfOk result (λ ports. ArePorts program.now.units program.now.entry ports.ins ports.outs) }
{
    let at = program.entry as usize;
    let entry = &program.units[at];
    Ok(Ports {
        ins: input_columns(alloc, entry)?,
        outs: output_columns(alloc, entry)?,
    })
}

/// Walks an accepted program over gathered rows.
fn walk_rows(
    alloc: Global,
    accepted: &AcceptedSource,
    outs: &List<Column>,
    gathering: &Gathering,
    seed: u64,
) -> Result<Walked, NoMemory>
    requires few_rows { length gathering.now.rows.items ≤ 1000000 }
    ensures { IfOk result (λ w. WalksRows accepted.now.program.structs accepted.now.program.units accepted.now.program.entry seed
        gathering.now.rows.items gathering.now.end outs.now w.text.items w.told.items w.finish) }
{
    rows_bound_runs();
    let mut places = List::new(alloc);
    let trace = bl_rules_walk::walk(
        alloc,
        accepted,
        gathering.rows.as_slice(),
        seed,
        &mut places,
    )?;
    Ok(Walked {
        text: text(alloc, outs, &trace)?,
        told: lines(alloc, places.as_slice())?,
        finish: finish_over(trace.last, gathering.end),
    })
}

/// Writes the text of a walk's trace. The lines of its steps are for `notes`.
fn write_walk<O: Sink>(alloc: Global, walk: Walked, out: &mut O) -> Answer
    ensures writes { WritesWalk walk.text.items walk.told.items walk.finish
        (output_of (O.faults out.old) (O.faults out.new) (O.held out.old) (O.held out.new)) result }
    ensures out_count { O.faults out.old ≤ O.faults out.new }
{
    match write_all(out, walk.text.as_slice()) {
        Ok(()) => Answer {
            outcome: end_of(alloc, walk.finish),
            told: walk.told,
        },
        Err(IoFault::Failed) => Answer::alone(alloc, Outcome::plain(alloc, Status::WriteFault)),
        Err(IoFault::NoMemory) => Answer::alone(alloc, Outcome::plain(alloc, Status::NoMemory)),
    }
}
