//! Frames of the activities of a C file: what their counters can be wherever a function is called with one of them. `frames_in` finds
//! them, and `are_frames` decides that they are as the laws of `bl_simplify_laws_frames` ask (`FramesOfFile` and
//! `KeepsFrames` there).
#![tactic(auto)]

mod decide;
mod ends;
mod fits;
mod found;
pub mod frames;
mod keeps;
mod plain;
mod reached;

pub use decide::are_frames;
pub use found::frames_in;
