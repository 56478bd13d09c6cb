//! The C of expressions, paths and acts is well formed (`formed`) and has a spelling (`spelled`). Lemmas only.
#![tactic(auto)]

pub mod formed;
pub mod spelled;
