//! Runs over files of rows, as each command does them that names one.

ghost use Rattle.std.specs.Prelude.{◌≡◌, ◌≤◌, true};
ghost use Rattle.bl_ctext_semantics_laws_places.specs.Behaviour.{behaviour_of};
ghost use Rattle.bl_top_commands.specs.Calls.{output_of};
ghost use Rattle.bl_top_commands.specs.inner.Outcomes.{IsEndOf, line_in};
ghost use Rattle.bl_top_commands.specs.Reads.{most_rows};
ghost use Rattle.bl_top_commands.specs.Rows.{IsInStep, Streams};
ghost use Rattle.bl_crun.specs.Running.{loaded};
ghost use Rattle.bl_io.specs.Count.{NeverFell};
ghost use Rattle.bl_io.specs.Left.{KeepsOthers};
ghost use Rattle.bl_rows_stream.specs.Streams.{ReadsLines, course_from, course_of};
ghost use Rattle.bl_rows_stream_laws.specs.Counts.{counts_by};

use crate::outcome::Outcome;
use crate::status::Status;
use bl_crun::Runner;
use bl_io::{Files, Sink};
use bl_rows_stream::{Finish, count, stream};
use bl_rows_stream_laws::counts_are_told;
use std::alloc::Global;

/// Runs a file that was just loaded over the rows of the named file, and writes the text of its trace.
pub fn run_over<F: Files, O: Sink>(
    alloc: Global,
    runner: Runner,
    rows: &str,
    files: &mut F,
    out: &mut O,
) -> Outcome
    requires fresh { runner ≡ loaded runner.parts }
    ensures streams { Streams (course_of runner.parts) (F.left files.old rows.now) (F.left files.new rows.now)
        (record { before = F.faults files.old rows.now; after = F.faults files.new rows.now })
        (output_of (O.faults out.old) (O.faults out.new) (O.held out.old) (O.held out.new)) result.status (line_in result) }
    ensures in_step { IsInStep (course_of runner.parts) (F.left files.old rows.now) (F.left files.new rows.now)
        (output_of (O.faults out.old) (O.faults out.new) (O.held out.old) (O.held out.new)) }
    ensures reads { ReadsLines most_rows (F.left files.old rows.now) (F.left files.new rows.now) }
    ensures others { KeepsOthers rows.now (F.left files.old) (F.left files.new) }
    ensures file_counts { NeverFell (F.faults files.old) (F.faults files.new) }
    ensures out_count { O.faults out.old ≤ O.faults out.new }
{
    let mut runner = runner;
    let finish = stream(alloc, &mut runner, rows, files, out);
    end_of(alloc, finish)
}

/// The same, and writes how many statements each tick executed.
pub fn count_over<F: Files, O: Sink>(
    alloc: Global,
    runner: Runner,
    rows: &str,
    files: &mut F,
    out: &mut O,
) -> Outcome
    requires fresh { runner ≡ loaded runner.parts }
    ensures streams { Streams (counts_by (behaviour_of runner.parts)) (F.left files.old rows.now) (F.left files.new rows.now)
        (record { before = F.faults files.old rows.now; after = F.faults files.new rows.now })
        (output_of (O.faults out.old) (O.faults out.new) (O.held out.old) (O.held out.new)) result.status (line_in result) }
    ensures in_step { IsInStep (counts_by (behaviour_of runner.parts)) (F.left files.old rows.now) (F.left files.new rows.now)
        (output_of (O.faults out.old) (O.faults out.new) (O.held out.old) (O.held out.new)) }
    ensures reads { ReadsLines most_rows (F.left files.old rows.now) (F.left files.new rows.now) }
    ensures others { KeepsOthers rows.now (F.left files.old) (F.left files.new) }
    ensures file_counts { NeverFell (F.faults files.old) (F.faults files.new) }
    ensures out_count { O.faults out.old ≤ O.faults out.new }
{
    counts_are_told();
    let mut runner = runner;
    let finish = count(alloc, &mut runner, rows, files, out);
    end_of(alloc, finish)
}

/// Goes on with a live runner over the rows of the named file, and writes the text of its trace.
pub fn go_over<F: Files, O: Sink>(
    alloc: Global,
    runner: Runner,
    rows: &str,
    files: &mut F,
    out: &mut O,
) -> Outcome
    requires live { runner.live ≡ true }
    ensures streams { Streams (course_from runner) (F.left files.old rows.now) (F.left files.new rows.now)
        (record { before = F.faults files.old rows.now; after = F.faults files.new rows.now })
        (output_of (O.faults out.old) (O.faults out.new) (O.held out.old) (O.held out.new)) result.status (line_in result) }
    ensures in_step { IsInStep (course_from runner) (F.left files.old rows.now) (F.left files.new rows.now)
        (output_of (O.faults out.old) (O.faults out.new) (O.held out.old) (O.held out.new)) }
    ensures reads { ReadsLines most_rows (F.left files.old rows.now) (F.left files.new rows.now) }
    ensures others { KeepsOthers rows.now (F.left files.old) (F.left files.new) }
    ensures file_counts { NeverFell (F.faults files.old) (F.faults files.new) }
    ensures out_count { O.faults out.old ≤ O.faults out.new }
{
    let mut runner = runner;
    let finish = stream(alloc, &mut runner, rows, files, out);
    end_of(alloc, finish)
}

/// How a job ends whose run over rows ended so.
pub fn end_of(alloc: Global, finish: Finish) -> Outcome
    ensures { IsEndOf finish result }
{
    match finish {
        Finish::Done => Outcome::plain(alloc, Status::Ok),
        Finish::Trapped => Outcome::plain(alloc, Status::Trapped),
        Finish::BadRows { line } => {
            Outcome::numbered(alloc, Status::BadRows, "rows: line ", u64::from(line))
        }
        Finish::ReadFault => Outcome::plain(alloc, Status::ReadFault),
        Finish::WriteFault => Outcome::plain(alloc, Status::WriteFault),
        Finish::NoMemory => Outcome::plain(alloc, Status::NoMemory),
    }
}
