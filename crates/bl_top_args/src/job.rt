//! The jobs, and how words ask for them.
ghost use Rattle.std.specs.Prelude.{◌≡◌, codes, false, IfOk, IfSome, map, option_map, string_bytes, true};
ghost use Rattle.std.specs.List.{list_all};
ghost use Rattle.bl_top_args.specs.inner.FirstWords.{first_is};
ghost use Rattle.bl_top_args.specs.Jobs.{IsCounted, files_of, is_plain_word, job_of, spec_of};

use crate::command_line::{command_line, job_read};
use crate::driven::driven_by;
use crate::faced::faced_by;
use crate::first::first_is;
use crate::linked::linked_by;
use clap::error::ErrorKind;
use std::alloc::{AllocError, Global};
use thiserror::Error;

/// What the program is to do. File names are as they were given.
#[derive(Drop)]
pub enum Job<'a> {
    /// Judge a source file by the rules.
    Check {
        /// The name of the source file.
        source: &'a str,
    },
    /// Write the C text of a source file.
    Build {
        /// The name of the source file.
        source: &'a str,
    },
    /// Run a source file over rows of input.
    Run {
        /// The name of the source file.
        source: &'a str,
        /// The name of the file of rows.
        rows: &'a str,
    },
    /// Run a source file over rows of input, in the interleaving that a seed picks.
    Walk {
        /// The name of the source file.
        source: &'a str,
        /// The name of the file of rows.
        rows: &'a str,
        /// How the steps are picked.
        seed: u64,
    },
    /// Run a C text over rows of input.
    Exec {
        /// The name of the file with the C text.
        text: &'a str,
        /// The name of the file of rows.
        rows: &'a str,
    },
    /// Run a source file against plants.
    Drive {
        /// The name of the source file.
        source: &'a str,
        /// How many ticks are run.
        ticks: u32,
        /// The names of the plants, as numbers.
        plants: Vec<u32>,
    },
    /// Make a program of so many stages, run it, and tell its outputs.
    Gen {
        /// How many stages it has.
        stages: u32,
    },
    /// Say how many C statements each function of a C text can execute.
    Bound {
        /// The name of the file with the C text.
        text: &'a str,
    },
    /// Say how many C statements each tick of a C text executes over rows of input.
    Count {
        /// The name of the file with the C text.
        text: &'a str,
        /// The name of the file of rows.
        rows: &'a str,
    },
    /// Run a C text over rows of input, and write the state after them.
    Save {
        /// The name of the file with the C text.
        text: &'a str,
        /// The name of the file of rows.
        rows: &'a str,
    },
    /// Run a C text from a saved state over rows of input, and write the state after them.
    SaveFrom {
        /// The name of the file with the C text.
        text: &'a str,
        /// The name of the file with the saved state.
        state: &'a str,
        /// The name of the file of rows.
        rows: &'a str,
    },
    /// Run a C text from a saved state over rows of input.
    Resume {
        /// The name of the file with the C text.
        text: &'a str,
        /// The name of the file with the saved state.
        state: &'a str,
        /// The name of the file of rows.
        rows: &'a str,
    },
    /// Write the interface of a source file, judged behind the interfaces of others.
    Face {
        /// The name of the source file.
        source: &'a str,
        /// The names of the interface files, in order.
        faces: &'a [String],
    },
    /// Write the C text of a program of several files.
    Link {
        /// The names of the source files, in order.
        sources: &'a [String],
    },
}

/// Memory ran out before the words were read.
#[derive(Clone, Copy, Debug, PartialEq, Eq, Error)]
#[error("no memory")]
pub struct NoMemory;

impl From<AllocError> for NoMemory {
    fn from(_error: AllocError) -> NoMemory {
        NoMemory
    }
}

/// The job that `words` ask for, those after the program's name; `None` where they ask for none. The first word is
/// a command's name, exactly as it is written, and the command says how many words follow it. After `save` a word
/// between the C text and the rows names a saved state and may be left out. After `drive` one or more words name
/// plants, after `face` any number of words behind the source name interface files, and after `link` from 2 to 64 words
/// name sources.
///
/// A seed is one or more decimal digits that write a number below 2 to the 64. A number of stages is one from 1
/// to 2 to the 32 less 1, and a number of ticks one up to 1,000,000. A plant is `tank` (1), `ramp` (2) or a number below
/// 2 to the 32. No word may be empty or begin with `-`. There is no command `help`; a file may have that name or a
/// command's.
pub fn job_of<'a>(alloc: Global, words: &'a [String]) -> Result<Option<Job<'a>>, NoMemory>
    ensures { IfOk result (λ job. option_map spec_of job
        ≡ job_of (map string_bytes words.entry.now)) }
{
    if !are_plain(words) {
        return Ok(None);
    }
    if first_is("drive", words) {
        return driven_by(alloc, words);
    }
    if first_is("face", words) {
        return Ok(faced_by(words));
    }
    if first_is("link", words) {
        return Ok(linked_by(words));
    }
    other_job(alloc, words)
}

/// The job that plain words ask for whose first is none of `drive`, `face` and `link`.
fn other_job<'a>(alloc: Global, words: &'a [String]) -> Result<Option<Job<'a>>, NoMemory>
    requires plain { list_all is_plain_word (map string_bytes words.now) ≡ true }
    requires no_drive { first_is (codes "drive") (map string_bytes words.now) ≡ false }
    requires no_face { first_is (codes "face") (map string_bytes words.now) ≡ false }
    requires no_link { first_is (codes "link") (map string_bytes words.now) ≡ false }
    ensures { IfOk result (λ job. option_map spec_of job
        ≡ job_of (map string_bytes words.entry.now)) }
{
    let command = command_line(alloc)?;
    match command.try_get_matches_from(words) {
        Ok(matches) => Ok(job_read(&matches)),
        Err(error) => match error.kind() {
            ErrorKind::OutOfMemory => Err(NoMemory),
            _ => Ok(None),
        },
    }
}

fn are_plain(words: &[String]) -> bool
    ensures { result ≡ list_all (λ word. is_plain_word (string_bytes word)) words.now }
{
    words.iter().all(|word| is_plain(word.as_str()))
}

fn is_plain(word: &str) -> bool
    ensures { result ≡ is_plain_word word.now }
{
    match word.as_bytes() {
        [] => false,
        [first, ..] => *first != b'-',
    }
}

/// The files that a job names have names that are not empty and do not begin with `-`.
pub fn files_have_plain_names(words: &[String])
    ensures { IfSome (job_of (map string_bytes words.now)) (λ job.
        list_all is_plain_word (files_of job) ≡ true) }
{}

/// A program that is made has at least one stage, and from 2 to 64 files are linked.
pub fn jobs_are_counted(words: &[String])
    ensures { IfSome (job_of (map string_bytes words.now)) IsCounted }
{}
