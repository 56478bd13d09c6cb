//! The C of functions is well formed, each function alone (`formed`) and in order (`files`). It has a spelling
//! (`spelled`), 64 bits hold its numbers (`numbered`), and it needs no more cells than rule Cells counts (`cells`).
//! Lemmas only.
#![tactic(auto)]

pub mod cells;
pub mod files;
pub mod formed;
pub mod numbered;
pub mod spelled;
