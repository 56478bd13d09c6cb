//! Trees and steps of small programs, so that each definition is seen at work. None of these functions does anything: each contract is
//! an example.
#![tactic(auto)]

pub mod trees;
