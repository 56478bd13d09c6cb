//! The typed program of a raw tree (docs/INTERNALS.md, "Programs"). `check` answers Ok exactly where none of the rules 6
//! to 17 fails, and else names the first that fails (`specs/Cause.antt`, `FailsFirst`); want of memory aside. Names are
//! judged by `bl_names` and types by `bl_types`, and the Ok is the `Program` of what they leave (`specs/Programs.antt`,
//! `IsProgramOf`), which is one by the law of `bl_types_laws`. Its blocks nest at most 100 deep, and its statements and
//! the conditions of its loops begin one after another, as those of a source do.
#![tactic(auto)]

mod program;

pub use program::check;
