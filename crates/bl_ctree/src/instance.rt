//! Activity instances (docs/LANGUAGE.md, "How a program runs").

use bl_tree::{List, Place, Static};

/// A `run` statement of a unit.
#[derive(Drop)]
pub struct Run {
    pub place: Place,
    /// The activity that it begins.
    pub unit: u32,
    /// The static paths for which the activity's outputs stand.
    pub outputs: List<Static>,
}

/// Where an instance comes from: a `run` statement of its caller's instance.
#[derive(Drop)]
pub struct Origin {
    pub caller: u32,
    pub place: Place,
    /// The caller's static paths for which the outputs stand.
    pub outputs: List<Static>,
}

/// An instance of an activity.
#[derive(Drop)]
pub struct Instance {
    pub unit: u32,
    /// How many callers it is below the entry.
    pub depth: u32,
    /// None of the entry.
    pub origin: Option<Origin>,
}
