//! The runner of C files. `Runner::load` checks a file, compiles it and runs its start. On a fault it gives the file
//! back with the cause (`specs/Cause.antt`, `IsCause`). That is the place at which it is ill formed, its number of
//! cells if more than 1,000,000, or want of memory. `tick`, on a row that fits, answers as the file's tick does, and
//! leaves its outputs and its cells (`specs/Running.antt`, `after_tick`; `Trace.antt` of `bl_ctext_semantics`,
//! `tick_c`). `tick_counted` counts its statements too. The runner isn't live after the run's end or a trap. It's ready
//! iff the start of its file doesn't trap. `cell` and `put` read and write the number of a cell, also where the start
//! or a tick has trapped.
#![tactic(auto)]

mod answer;
mod call;
mod fault;
mod fits;
mod ports;
mod prepared;
mod runner;
mod tick;

pub use fault::{LoadFault, check};
pub use runner::Runner;
pub use tick::TickAnswer;
