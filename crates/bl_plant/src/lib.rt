//! Plants, which stand for what a controller controls. A plant gives rows of numbers and receives rows of outputs.
//! `Plant` says what its answers mean (`specs/Plants.antt`, `Gives` and `IsTold`). `Tank`, `Ramp` and `Script` state
//! their rules, and answer by them (`specs/Kinds.antt`).
#![tactic(auto)]

mod log;
mod plant;
mod ramp;
mod rows;
mod script;
mod tank;

pub use log::{Log, PlantName};
pub use plant::{Give, Plant};
pub use ramp::Ramp;
pub use script::{Script, Turn};
pub use tank::Tank;
