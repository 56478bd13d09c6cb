//! The columns that a named plant fills.

use bl_plant::PlantName;
use bl_tree::Row;

/// The columns of inputs that a named plant fills.
#[derive(Drop)]
pub struct Seat {
    pub name: PlantName,
    /// The last row that it gave; zeros before that.
    pub columns: Row,
    /// Whether it has finished, and was dropped.
    pub finished: bool,
}
