//! The C of the blocks of a pass (docs/C_SUBSET.md, "What `blechc` writes"). Unless memory runs out, `add_blocks` adds exactly the
//! specified `if`s of blocks, by the turns of their nodes' rules (`specs/Numbered.antt`, `numbered_turn`).
//! `blocks_alike`: the result depends only on the fields in `Alike` (`specs/Laws.antt`).
#![tactic(auto)]

mod blocks;
mod changes;
mod counters;
mod ends;
mod guards;
mod laws;
mod merging;
mod pairs;
mod parts;
mod places;
mod runs;
mod tests;
mod view;

pub use ends::{may_end_at, statement_where, unit_may_end};
pub use laws::blocks_alike;
pub use merging::add_blocks;
pub use view::ActivityView;
