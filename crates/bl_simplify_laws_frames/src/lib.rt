//! Laws of the frames of activities in C files: what their counters can be wherever a function is called with one of them, and that a file
//! keeps its trace where each function does the same in such calls (`specs/Reached.antt`). Lemmas only.
//!
//! A function's frame is what its first pointer leads to: counters, and frames within it. Facts of its counters are kept by each call if they
//! hold where all is 0, and after the function's body where they and the facts of the frames within it hold before.
#![tactic(auto)]

pub mod reached;
