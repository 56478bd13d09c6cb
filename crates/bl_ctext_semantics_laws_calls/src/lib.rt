//! A C function's meaning depends only on the functions that its body calls (`known`), and so do the faults of a block
//! (`called`). Lemmas only.
#![tactic(auto)]

pub mod called;
pub mod known;
