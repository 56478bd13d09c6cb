//! A closed loop: a live runner of a C file against named plants. In each tick, `drive` asks the plants for the row of
//! inputs, does the tick, hands them its outputs and records it. It goes on for so many ticks, or until the run ends or
//! traps (`specs/Drives.antt`, `DriveEnds`). The trace is the runner's over the rows that were given. What each named
//! plant gave and received, and when it was dropped, follows its rule where it states one. The other plants are
//! unchanged (`specs/Roles.antt`, `Plays` and `left_in`). A fault has its cause: a plant whose count of faults rose, a
//! number outside its range, or names and widths that don't fit. The crate knows no kind of plant.
#![tactic(auto)]

mod ask;
mod closed_loop;
mod driven;
mod fault;
mod inputs;
mod listed;
mod names;
mod recorded;
mod round;
mod seat;
mod seats;
mod tell;
mod tick;

pub use closed_loop::drive;
pub use driven::{Driven, Gone};
pub use fault::DriveFault;
