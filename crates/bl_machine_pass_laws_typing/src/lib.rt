//! Laws of types in passes: a pass by rules keeps its store and its copies well-typed (`fits`, with `specs/Fits.antt`, `PassesKeepTypes`). An
//! instance sees what is written at the homes of its paths, and all else as before (`seen`, with `PutsAreSeen` and `ActsAreSeen`). The stores
//! with which runs and ticks begin are well-typed (`starts`, with `AllStartsFit`). Each law is the contract of a function with an empty body.
#![tactic(auto)]

pub mod fits;
pub mod seen;
pub mod starts;
