//! The C of functions simulates them. Lemmas only: bodies (`bodies`), calls (`calls`), results (`results`), and all
//! functions of a typed program (`units`).
#![tactic(auto)]

pub mod bodies;
pub mod calls;
pub mod results;
pub mod units;
