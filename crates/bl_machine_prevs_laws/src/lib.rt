//! Laws of `prev` in programs of source texts. In the program of a text in which no rule fails, each `prev` stands behind the declaration of its
//! variable (`declared`, with `FromText` of `bl_machine_prevs`). This holds of its named tree (`names`), and typing keeps it (`types`). What
//! stands under a `prev` is a scalar (`scalar`, with `specs/Scalar.antt`). Each law is the contract of a function with an empty body.
#![tactic(auto)]

pub mod declared;
pub mod names;
pub mod scalar;
pub mod types;
