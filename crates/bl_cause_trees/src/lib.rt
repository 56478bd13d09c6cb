//! The rules Twice and Cycle (docs/LANGUAGE.md, "Rules"), judged on peeled activities. A peeled activity has one copy of each loop that
//! begins a branch of a `cobegin`, for the loop's first turn. An activity isn't peeled if its own tick graph has no closed walk, or if
//! its peeled body would have more than 10,000 statements (`specs/Peeled.antt`, `IsPeeledUnit`).
//!
//! Unless memory runs out, `check` returns Ok iff neither rule fails on the peeled activities, with the peeled program and its
//! schedule: tick graphs and orders. If no activity is peeled, that program is the source, and nothing is copied. On failure `check`
//! returns the first failing rule with its first place among all activities (`specs/Rules.antt`, `Fails`). `check_units` judges units
//! that need not be a program's.
//!
//! Each activity is judged by its own tick graph first. If it passes, that graph and its order are kept. Else the graph is dropped
//! before the peeled body is made, one activity at a time. So each graph and each body is made once.
//!
//! Laws: units have exactly one list of peeled units; a rule of this crate fails for units iff that of `bl_cause` fails for their
//! peeled units; units that pass by their own tick graphs aren't peeled.
#![tactic(auto)]

mod activity;
mod body;
mod copies;
pub mod laws;
mod program;
mod units;

pub use program::{Scheduled, check, check_units};
