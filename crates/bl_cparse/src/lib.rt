//! The parser of the C subset. `parse` answers Ok only with a file that the bytes spell (`SpellsC` of `bl_ctext`), with
//! each part at its place (`specs/HasPlaces.antt`, `HasPlaces`). It rejects only texts outside the grammar
//! (`specs/Places.antt`, `RefusesNone`), with the offset of the first error (`LeavesPrelude`, `RefusesAt`); want of
//! memory aside. `parse` requires at most 67,108,864 bytes, which is the longest text that `exec` takes.
//!
//! The recogniser of `bl_cparse_syntax` goes over the text first and reports failures. Then each function of `parser`
//! reads one part of the grammar from the front of what is left, with an explicit stack of open parts. `placing` sets
//! the places in one walk over the file and the text.
#![tactic(auto)]

mod make;
mod make_stmt;
mod parser;
mod placing;
mod reader;
mod refusal;
mod room;

pub use parser::parse;
pub use refusal::CRefusal;
