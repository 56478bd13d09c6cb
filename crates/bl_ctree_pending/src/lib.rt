//! What a control tree may still do before its next pause (docs/LANGUAGE.md, "Control trees"). `pending` answers
//! whether the tree may end, and appends the static paths that it may still write (`specs/Writes.antt`, `write_paths`).
//! As a law, one of these has a home that overlaps a location exactly where the tree may still write there
//! (`specs/Laws.antt`, `PathsTell`).
#![tactic(auto)]

pub mod laws;
mod surface;
mod writes;

pub use writes::pending;
