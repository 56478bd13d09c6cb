//! Source programs whose names are resolved: positions stand for the names of structs, constants, units and variables
//! (docs/INTERNALS.md, "Named trees"). There are types alone, and the definition of where each position stands for
//! something that is declared before its use (`specs/Placed.antt`, `IsPlaced`).
//! The trees have a `drop` of their own, as those of `bl_tree` have.
#![tactic(auto)]

pub mod expr;
pub mod item;
pub mod named;
pub mod stmt;
pub mod types;

pub use named::Named;
