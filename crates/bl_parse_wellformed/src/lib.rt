//! Raw trees that are well-formed. A `WellFormedTree` has a raw tree, and that it is well-formed (`RawIsWellFormed` of
//! `bl_parse_tree`). `parse` makes the one that the tokens of a text spell. Else it tells the failure of rule Depth or
//! Syntax, as `bl_parse` does; want of memory aside.
#![tactic(auto)]

mod text;
mod tree;

pub use text::parse;
pub use tree::WellFormedTree;
