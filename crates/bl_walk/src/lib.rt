//! One interleaving of a program, picked by a seed (docs/LANGUAGE.md, "Walking one interleaving"). `walk` runs a
//! program over rows and gives a trace that the parallel meaning allows, and for each tick begun the places of its
//! steps: a maximal list, in which each step is the one that the seed picks among the points that may act
//! (`specs/Walks.antt`, `HasWalked`; `specs/Choices.antt`). `lines` tells these places, a line for each tick
//! (`specs/Lines.antt`). Both fail only for want of memory. `walk` asks that the program has fewer than 2^32 instances,
//! that no list of steps of a tick is longer than some number, and that no tick is stuck: `bl_rules_laws` has this for each
//! accepted text.
//!
//! Laws: a point that may act steps or traps; picked lists are lists of steps; where no tick is stuck a point may act as
//! long as something is left to do; what a walk shows the meaning allows, so that each seed has the trace of a program
//! that has one; a run that has ended or trapped stays as it is (`specs/Laws.antt`).
#![tactic(auto)]

mod choice;
pub mod laws;
mod notes;
mod run;
mod tick;

pub use choice::Choice;
pub use notes::lines;
pub use run::walk;
