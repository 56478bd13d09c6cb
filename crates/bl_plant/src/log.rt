//! The name of a plant, and what it keeps of the rows that it gave and was told.

use bl_tree::{List, Row};

/// The name of a plant.
#[derive(Clone, Copy, PartialEq, Eq, Debug)]
pub struct PlantName {
    pub number: u32,
}

/// The rows that a plant gave, and the outputs that it was told, each in order.
#[derive(Drop)]
pub struct Log {
    pub given: List<Row>,
    pub told: List<Row>,
}
