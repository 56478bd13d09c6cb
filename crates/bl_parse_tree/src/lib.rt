//! Source programs as they are written: trees whose names are texts with their places (docs/INTERNALS.md, "Raw trees").
//! There are types alone, and the definition of what such a tree keeps (`specs/WellFormed.antt`, `RawIsWellFormed`), which
//! `bl_parse_laws` shows of each tree that a text spells.
//! The trees have a `drop` of their own, as those of `bl_tree` have.
#![tactic(auto)]

pub mod expr;
pub mod item;
pub mod name;
pub mod raw;
pub mod stmt;
pub mod types;

pub use raw::Raw;
