//! Tables of what the C of a program needs (docs/C_SUBSET.md, "What `blechc` writes"): which variables of an activity
//! have a copy of their values at the start of the tick; how many values its counters have; which counters have a copy;
//! the words in the names of its flags and marks; and which units of a program its entry needs. Each table is made in
//! one pass, and fails only if memory runs out.
//! `specs/Told.antt` says which registers the rules of an activity use.
#![tactic(auto)]

mod bools;
mod copies;
mod needed;
mod prevs;
mod read;
mod sizes;
mod words;

pub use copies::copies_of;
pub use needed::needed_units;
pub use prevs::prevs_of;
pub use read::read_by;
pub use sizes::sizes_of;
pub use words::{name_of, node_named, words_of};
