//! The one call: the job that words ask for, done.

ghost use Rattle.std.specs.Prelude.{◌≤◌, map, string_bytes};
ghost use Rattle.bl_top_commands.specs.Calls.{Output, call_of, output_of};
ghost use Rattle.bl_top_commands.specs.inner.Outcomes.{lines_in};
ghost use Rattle.bl_top_commands.specs.Reads.{Reads, files_read};
ghost use Rattle.bl_io.specs.Count.{NeverFell};
ghost use Rattle.bl_top.specs.Answers.{Answered, Answers, KeepsCounts, KeepsPlants};
ghost use Rattle.bl_top_args.specs.Jobs.{job_of};

use crate::build::build;
use crate::drive::drive;
use crate::link::link;
use crate::run::run;
use bl_io::{Files, Sink};
use bl_plant::Plant;
use bl_top_args::{Job, jobs_are_counted};
use bl_top_commands::answer::Answer;
use bl_top_commands::bound::bound;
use bl_top_commands::check::check;
use bl_top_commands::count::count;
use bl_top_commands::exec::exec;
use bl_top_commands::face::face;
use bl_top_commands::generate::generate;
use bl_top_commands::laws::kept_files_are_within_limits;
use bl_top_commands::notes::with_notes;
use bl_top_commands::outcome::Outcome;
use bl_top_commands::resume::resume;
use bl_top_commands::save::{save, save_from};
use bl_top_commands::status::Status;
use bl_top_commands::walk::walk;
use std::alloc::Global;

/// Does the job that the words after the program's name ask for: writes its result on `out`, and on `notes` the lines of
/// the job, last the one that goes with its status (docs/FORMATS.md, "Notes"). Files are read by the names in the words
/// alone, and plants are asked by the names in the words alone.
pub fn blechc<F: Files, O: Sink, N: Sink>(
    alloc: Global,
    words: &[String],
    files: &mut F,
    out: &mut O,
    notes: &mut N,
    plants: &mut Vec<Box<dyn Plant>>,
) -> Status
    ensures answered { Answered (map string_bytes words.now)
        (call_of (F.left files.old) (F.left files.new) (F.faults files.old) (F.faults files.new)
        (output_of (O.faults out.old) (O.faults out.new) (O.held out.old) (O.held out.new))
        (output_of (N.faults notes.old) (N.faults notes.new) (N.held notes.old) (N.held notes.new)))
        (record { before = map (λ b. shown b) plants.old.items; after = map (λ b. shown b) plants.new.items }) result }
    ensures plants { KeepsPlants (job_of (map string_bytes words.now))
        (record { before = map (λ b. shown b) plants.old.items; after = map (λ b. shown b) plants.new.items }) }
    ensures reads { Reads (files_read (job_of (map string_bytes words.now))) (F.left files.old) (F.left files.new) }
    ensures file_counts { NeverFell (F.faults files.old) (F.faults files.new) }
    ensures out_count { O.faults out.old ≤ O.faults out.new }
    ensures notes_count { N.faults notes.old ≤ N.faults notes.new }
    ensures plant_counts { KeepsCounts (map (λ b. shown b) plants.old.items) (map (λ b. shown b) plants.new.items) }
{
    let done = answer(alloc, words, files, out, plants);
    with_notes(&done, notes)
}

/// The end of the job itself, before its lines are written.
fn answer<F: Files, O: Sink>(
    alloc: Global,
    words: &[String],
    files: &mut F,
    out: &mut O,
    plants: &mut Vec<Box<dyn Plant>>,
) -> Answer
    ensures answers { (notes : Output) → Answers
        (call_of (F.left files.old) (F.left files.new) (F.faults files.old) (F.faults files.new)
        (output_of (O.faults out.old) (O.faults out.new) (O.held out.old) (O.held out.new)) notes)
        (record { before = map (λ b. shown b) plants.old.items; after = map (λ b. shown b) plants.new.items })
        (job_of (map string_bytes words.now)) result.outcome.status (lines_in result) }
    ensures plants { KeepsPlants (job_of (map string_bytes words.now))
        (record { before = map (λ b. shown b) plants.old.items; after = map (λ b. shown b) plants.new.items }) }
    ensures reads { Reads (files_read (job_of (map string_bytes words.now))) (F.left files.old) (F.left files.new) }
    ensures file_counts { NeverFell (F.faults files.old) (F.faults files.new) }
    ensures out_count { O.faults out.old ≤ O.faults out.new }
{
    jobs_are_counted(words);
    kept_files_are_within_limits();
    match bl_top_args::job_of(alloc, words) {
        Ok(Some(Job::Check { source })) => Answer::alone(alloc, check(alloc, source, files, out)),
        Ok(Some(Job::Build { source })) => Answer::alone(alloc, build(alloc, source, files, out)),
        Ok(Some(Job::Run { source, rows })) => Answer::alone(
            alloc,
            run(alloc, source, rows, files, out),
        ),
        Ok(Some(Job::Walk { source, rows, seed })) => walk(alloc, source, rows, seed, files, out),
        Ok(Some(Job::Exec { text, rows })) => Answer::alone(
            alloc,
            exec(alloc, text, rows, files, out),
        ),
        Ok(
            Some(
                Job::Drive {
                    source,
                    ticks,
                    plants: names,
                },
            ),
        ) => drive(alloc, source, ticks, &names, files, out, plants),
        Ok(Some(Job::Gen { stages })) => Answer::alone(alloc, generate(alloc, stages, out)),
        Ok(Some(Job::Bound { text })) => Answer::alone(alloc, bound(alloc, text, files, out)),
        Ok(Some(Job::Count { text, rows })) => Answer::alone(
            alloc,
            count(alloc, text, rows, files, out),
        ),
        Ok(Some(Job::Save { text, rows })) => Answer::alone(
            alloc,
            save(alloc, text, rows, files, out),
        ),
        Ok(Some(Job::SaveFrom { text, state, rows })) => Answer::alone(
            alloc,
            save_from(alloc, text, state, rows, files, out),
        ),
        Ok(Some(Job::Resume { text, state, rows })) => Answer::alone(
            alloc,
            resume(alloc, text, state, rows, files, out),
        ),
        Ok(Some(Job::Face { source, faces })) => Answer::alone(
            alloc,
            face(alloc, source, faces, files, out),
        ),
        Ok(Some(Job::Link { sources })) => Answer::alone(alloc, link(alloc, sources, files, out)),
        Ok(None) => Answer::alone(alloc, Outcome::plain(alloc, Status::Usage)),
        Err(_) => Answer::alone(alloc, Outcome::plain(alloc, Status::NoMemory)),
    }
}
