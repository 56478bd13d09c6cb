//! Bodies of activities in which each loop that begins a branch of a `cobegin` is copied once for its first turn. What is
//! copied stands before the loop, and is followed by the loop's test, an `if` at the place of its condition; copies keep
//! their places (`specs/Peeled.antt`, `peeled`). `peel_body` makes exactly that body, unless it has more than 10,000
//! statements (`specs/Count.antt`, `statement_count`); want of memory aside. `peel` does the same for a unit of a program.
//!
//! The statements are counted in one walk before any is made, and made in one walk, so the time is that of what is made. `copies` copies
//! statements as they are.
//!
//! Laws: the body that is made may end in its first tick where the source may, has its width, and reads and writes what it
//! does, also before it pauses; so do its parts (`specs/Laws.antt`).
#![tactic(auto)]

mod bodies;
pub mod copies;
mod count;
mod ends;
pub mod laws;
mod turns;

pub use bodies::{PeelFault, peel, peel_body};
