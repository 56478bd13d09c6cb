//! A controller's state as bytes (docs/FORMATS.md, "Saved states"). `save` gives the saved state of a runner's cells
//! (`specs/States.antt`, `SavedState`), want of memory aside. `restore` sets the cells to the numbers whose saved state
//! the bytes are, and allocates no memory. It answers BadState iff the bytes are no saved state, and then leaves the
//! runner unchanged. The answer has the least n such that the first n + 1 bytes begin none (`ShowsBadState`). Whether a
//! state belongs to the C text that it is used with isn't known.
//!
//! Law: bytes are the saved state of at most one memory of a file.
#![tactic(auto)]

mod cell;
mod fault;
pub mod laws;
mod restoring;
mod saving;

pub use fault::StateFault;
pub use restoring::restore;
pub use saving::save;
