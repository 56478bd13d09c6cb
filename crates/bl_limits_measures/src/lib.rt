//! Measures of a typed program: how large its types, variables and units are, how many activity instances it expands to,
//! and which units call each other (docs/LANGUAGE.md, "Measures"). Each is found in one pass over the program, unit after
//! unit, by what is known of the earlier ones. `Measures::of` tells exactly these numbers, as far as 64 bits go
//! (`specs/Tells.antt`, `MeasuresTell`).
//!
//! Laws: a limit is told whatever saturates; the numbers of a unit are made of those of what it runs and calls.
#![tactic(auto)]

mod calls;
pub mod laws;
mod measures;
mod runs;
mod statements;
mod tables;
mod types;

pub use calls::calls_of;
pub use measures::Measures;
pub use runs::{PlacedRun, activities_by_place, activities_run};
