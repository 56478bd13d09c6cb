//! The numbers of rules Frames and Cells over the source. The rules judge peeled units. These have as many instances as the
//! units of the source, and head chains as long. Their cells go by the variables, calls and `run`s of the source, and by
//! how many statements the peeled bodies have (`specs/Laws.antt`).
#![tactic(auto)]

pub mod laws;
