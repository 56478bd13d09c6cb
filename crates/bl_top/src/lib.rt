//! The one call that the program makes. `blechc` ends with the status of the job that its words ask for, and the lines
//! of the job grew on `notes`, that of the status last (`specs/Answers.antt`, `Answered`). Each way in which a job ends
//! comes with its whole cause and with what grew on `out`. For `build`, `link`, `run` and `drive`, which make the C file of a
//! program, these are in `specs/Build.antt`, `specs/Link.antt`, `specs/Run.antt` and `specs/Drive.antt`, and for the others in
//! `bl_top_commands`. The bytes that `build` writes have the one trace of the source's program, and `run` shows its
//! text (`OneTrace` and `HasCourse` of `bl_top_commands`). In the file of those bytes, each activity with an instance
//! has one function, which alone names its counters. It has as many counters as its width. The file is simplified: the
//! one that it is made of has as many `if`s for the activity as a merged machine has blocks (`IsBuiltOf`).
//! docs/THEOREM.md explains the contract.
//!
//! Laws: `exec` of a text that was built of a source, and isn't too long, ends by the one trace of the source's program
//! (`specs/Built.antt`, `BuiltEnds`). All commands that run a source end alike over the same rows, and show the same.
//! Their statements are in `specs/Laws.antt`.
#![tactic(auto)]

mod build;
mod call;
mod drive;
mod emitted;
pub mod laws;
mod link;
mod run;

pub use bl_top_commands::status::Status;
pub use call::blechc;
