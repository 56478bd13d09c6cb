//! Accepted programs have exactly one trace (`traces`). Lemmas only. Every tree that a run reaches fits a place in a tick graph
//! (`progress`), so no such tree is stuck (`ready`), and ticks are bounded (`bounded`).
#![tactic(auto)]

pub mod bounded;
pub mod progress;
pub mod ready;
pub mod traces;
