//! The rules Type, Literal, Immutable, Constant, Arity, Prev, Return, Where and Entry, and the typed tree
//! (docs/LANGUAGE.md, "Types" and "Rules"), in one walk over the named tree. `judge` answers Ok exactly where none of
//! the nine fails, for every named tree. Else it names the first that fails, at its least places (`specs/Rules.antt`,
//! `FailsFirst`); want of memory aside. All failures of a tree are listed by `failures_of`, and the Ok is
//! `typed_program` (`specs/Programs.antt`). An open expression takes the type that is wanted of it
//! (`specs/Settled.antt`), and a constant becomes a literal (`specs/Folded.antt`).
//!
//! `judge_behind` judges a program behind a start: the structs, constants and units that are known before it
//! (`Environment::behind`, `failures_behind`). Only what stands in the program is judged. Of several programs the last has the
//! entry, and the others are to have none. The Ok is all that is known at the end (`known_behind`). `judge` is the case without
//! a start.
#![tactic(auto)]

mod call;
mod declare;
mod environment;
mod expr;
mod failure;
mod fold;
mod form;
mod operators;
mod program;
mod returns;
mod settle;
mod slices;
mod stmt;
mod structs;
mod target;
mod types;
mod unit;

pub use environment::{Constant, Environment, Known, Typed};
pub use program::{judge, judge_behind};
