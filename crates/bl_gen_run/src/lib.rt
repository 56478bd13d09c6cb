//! The generated program, checked and run. `run` makes the program with a given number of stages (`bl_gen`) and checks it by the
//! rules. It reports the program's one trace over the rows 1 to 100: four lines, or that a tick trapped (`specs/Runs.antt`,
//! `IsGeneratedRun`). It takes one interleaving of the parallel semantics; all interleavings have the same trace. Otherwise it
//! reports too many stages, the first failing rule, or a lack of memory (`IsUnrun`).
#![tactic(auto)]

mod text;
mod unrun;
mod walked;

pub use text::Run;
pub use unrun::Unrun;
pub use walked::run;
