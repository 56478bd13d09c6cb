//! Which pieces spell a text of the C subset, and where the others first fail (docs/C_SUBSET.md, "Grammar" and "Where a
//! text fails"). `check` answers None iff the pieces of a text behind its prelude spell one (`specs/Grammar.antt`,
//! `SpellText`). Otherwise it answers the offset at which they stop beginning one (`specs/Rules.antt`, `FailsFirst`):
//! the pieces before it can be completed, and with the next one they can't, as in `bl_parse_syntax`; want of memory
//! aside. The limit of 2,000 open brackets is part of the grammar.
//!
//! Laws: a text first fails at one place, the pieces of a part are read in one way, and a parser knows what follows.
#![tactic(auto)]

mod choice;
mod classes;
mod expressions;
pub mod grammar;
mod items;
pub mod laws;
pub mod piece;
mod rules;
mod seen;
mod stack;
mod statements;
#[tactic(auto, unfolding(crate::specs::Pieces::is_same, bl_ctext::specs::Names::is_among, bl_ctext::specs::Names::is_name, bl_ctext::specs::Names::is_struct_name, bl_ctext::specs::Names::is_callee, bl_ctext::specs::Names::is_function_name, bl_ctext::specs::Names::is_turn_name))]
pub mod words;

pub use rules::check;
