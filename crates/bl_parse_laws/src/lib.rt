//! Laws of raw trees. None of these functions does anything: the contract is the law. `spelled`: tokens that spell a
//! raw tree spell a program of the grammar, and a text with its tokens spells at most one tree. `kept`: a tree that the
//! tokens of a text spell within the limits of rule Depth keeps what a raw tree keeps (`RawIsWellFormed` of `bl_parse_tree`).
#![tactic(auto)]

pub mod kept;
pub mod spelled;
