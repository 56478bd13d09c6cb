//! The C functions of activities and the structs of a file are well formed, and need no more cells than rule Cells
//! counts. Lemmas only.
#![tactic(auto)]

pub mod bodies;
pub mod cells;
pub mod lists;
pub mod signed;
pub mod structs;
