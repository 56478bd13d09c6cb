//! What a drive records.

ghost use Rattle.std.specs.Prelude.{◌≡◌};
ghost use Rattle.bl_plant_drive.specs.Driven.{nothing_driven};

use bl_plant::PlantName;
use bl_tree::{Last, List, Row, Trace};
use std::alloc::Global;

/// A plant that has finished and was dropped.
#[derive(Clone, Copy, PartialEq, Eq, Debug)]
pub struct Gone {
    pub name: PlantName,
    /// How many rows it gave in the drive.
    pub rows: u32,
}

/// What a drive records of its ticks.
#[derive(Drop)]
pub struct Driven {
    /// The rows of inputs, one for each tick begun.
    pub ins: List<Row>,
    pub trace: Trace,
    /// The plants that have finished, in the order in which they were dropped.
    pub gone: List<Gone>,
}

impl Driven {
    /// The record of no tick.
    pub fn new(alloc: Global) -> Driven
        ensures { result ≡ nothing_driven }
    {
        Driven {
            ins: List::new(alloc),
            trace: Trace {
                rows: List::new(alloc),
                last: Last::Open,
            },
            gone: List::new(alloc),
        }
    }
}
