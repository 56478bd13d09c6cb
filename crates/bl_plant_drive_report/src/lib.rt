//! A source's runner driven against plants, as the command `drive` shows it. `run` drives a live runner against the
//! named plants (`bl_plant_drive`) and reports the result: the text of the trace, a line for each plant that has
//! finished, and how the drive ended. A line names a plant that failed, names and widths that don't fit, or a number
//! outside its type (`specs/Reports.antt`, `IsReport`); want of memory aside.
#![tactic(auto)]

mod driving;
mod lines;
mod report;

pub use driving::run;
pub use report::{End, Report};
