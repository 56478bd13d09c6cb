//! The semantics of the C subset, and which of its texts are well formed (docs/C_SUBSET.md, "Well-formed files" and
//! "Meaning"). `check::check` answers Ok iff a file is well formed (`specs/Faults.antt`, `WellFormed`), and else the
//! first place at which it fails (`first_fault`). `check::cells` answers how many scalar cells a file needs
//! (`specs/Sizes.antt`, `cells_needed`), at most 2^64 - 1. `check::block_returns` answers whether a block surely returns
//! (`specs/Faults.antt`, `last_returns`). Control flow and statement counts, for any kind of memory,
//! are in `specs/Course.antt`. The meaning of statements is in `specs/Meaning.antt`, and that of a file over rows in
//! `specs/Trace.antt` (`c_trace`).
//!
//! Laws: no body of a function ends by `break`. No tick executes more statements than its bound (`specs/Cost.antt`). A
//! trace can be continued from the cells that its first rows leave (`specs/Laws.antt`).
#![tactic(auto)]

pub mod check;
pub mod laws;
pub mod maps;
pub mod prelude;
pub mod sizes;

pub use prelude::Builtins;
