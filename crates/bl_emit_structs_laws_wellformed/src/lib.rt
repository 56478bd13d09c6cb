//! The C structs of a program have different names (`names`) and are well formed (`formed`). Lemmas only.
#![tactic(auto)]

pub mod formed;
pub mod names;
