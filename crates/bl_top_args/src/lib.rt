//! What the words of the command line ask for. `job_of` gives, for all words, exactly the job of the definition
//! `job_of` (`specs/Jobs.antt`), and `usage` gives its line (`specs/Usage.antt`); want of memory aside. The words are
//! read with clap, by the rules of `specs/inner/CommandLine.antt`; those of `drive`, `face` and `link`, of which there may be many, are read here.
#![tactic(auto)]

ghost use Rattle.std.specs.Prelude.{◌≡◌};
ghost use Rattle.bl_top_args.specs.Usage.{usage_line};

mod command_line;
mod driven;
mod faced;
mod first;
mod job;
mod linked;
mod seed;
mod stages;

pub use job::{Job, NoMemory, files_have_plain_names, job_of, jobs_are_counted};

/// The line for words that ask for no job, its line feed included: each command with its words, those that
/// stand for something else in capitals.
pub fn usage() -> &'static str
    ensures { result.now ≡ usage_line }
{
    "usage: blechc check P | build P | run P ROWS | walk P ROWS SEED | exec C ROWS | drive P TICKS PLANT.. | gen N \
     | bound C | count C ROWS | face P FACE.. | link P P.. | save C ROWS | save C STATE ROWS | resume C STATE ROWS\n"
}
