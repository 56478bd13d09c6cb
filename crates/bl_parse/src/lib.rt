//! The tree that the tokens of a text spell. `parse` answers Ok exactly where the tokens keep the rules Depth and
//! Syntax, and else as `check` of `bl_parse_syntax` does; want of memory aside. Its tree is one that the tokens spell
//! (`specs/Programs.antt`, `Spells`): each name is what the text has at its token, each expression and statement runs
//! from its first token to its last, and chains associate to the left. By `bl_parse_laws` there is no other.
//!
//! It reads by recursive descent over positions in the list of tokens. A reader asks that its part of the grammar is
//! expected where it stands (`specs/inner/Reading.antt`, `Awaits`), so that it fails for want of memory alone.
#![tactic(auto)]

mod expr;
mod item;
mod name;
mod operator;
mod parts;
mod program;
mod scalar;
mod source;
mod stmt;
mod types;

pub use program::parse;
