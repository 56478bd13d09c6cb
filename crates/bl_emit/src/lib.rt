//! The C of an activity and of a whole program (docs/C_SUBSET.md, "What `blechc` writes"). Unless memory runs out, `emit`
//! returns exactly the structs and functions that are specified for a program and its machine (`specs/Programs.antt`,
//! `written_told`).
#![tactic(auto)]

mod activity;
mod chosen;
mod code;
mod counters;
mod frames;
mod interface;
mod locals;
mod params;
mod parts;
mod program;
mod registers;
mod runs;
mod shown;
mod ticks;
mod units;

pub use program::{Written, emit};
