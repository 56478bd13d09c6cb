//! Texts by line, as the Language Server Protocol has them: where a byte of a text stands, by its line and the UTF-16 units
//! before it, and which byte stands at such a position. `position` and `offset_of` compute what
//! `specs/Positions.antt` defines. `positions_lead_back` is the law that the one undoes the other, at each offset where a
//! character begins or the text ends.
#![tactic(auto)]

pub mod laws;
mod lines;
mod position;
mod stand;

pub use lines::Lines;
pub use position::{Position, offset_of};
pub use stand::Stand;
