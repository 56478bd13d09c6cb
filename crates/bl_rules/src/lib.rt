//! All rules together. Unless memory runs out, `accept` returns the program of a text iff no rule fails for the text, and otherwise
//! the first failing rule with its first place (`specs/Rules.antt`, `FirstFailing`). One relation, `Fails`, says how a text fails a
//! rule. Each layer judges its rules on what the earlier layers make of a text that passes theirs. `accept_raw` does the same for a
//! well-formed tree, with the rules from Duplicate on.
//!
//! Twice, Cycle, Frames and Cells are judged on peeled units (`bl_cause_trees`). An accepted source has its own program and the peeled
//! one, for which no rule fails by itself (`specs/Accepted.antt`, `SeenSource`). The peeled program has the tick graphs of its
//! activities and an order for each (`Accepted` of `bl_cause`).
//!
//! Laws: a text has at most one first failing rule, with one place, and a text that passes has none. A text has at most one
//! tree. Its program is that of a well-formed tree that passes (`specs/Accepted.antt`, `IsOfTree`). Laws of accepted programs
//! require no more, so they hold for texts of any size. Its peeled program is well-typed, and passes the rules
//! (`specs/Laws.antt`).
#![tactic(auto)]

mod accepted;
mod judge;
pub mod laws;

pub use accepted::AcceptedSource;
pub use judge::{accept, accept_raw};
