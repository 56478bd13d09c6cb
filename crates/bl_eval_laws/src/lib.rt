//! Values and acts depend only on what they mention. Lemmas only. The value of an expression depends on the values at its
//! static paths and on the former values of the variables that it names. Whether an act traps and what it writes depends on
//! what it reads and writes, and on the former values of the variables that it names (`specs/Local.antt`).
#![tactic(auto)]

pub mod local;
