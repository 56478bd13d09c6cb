//! Why a text has no part.

use bl_tree::{List, NoMemory, Place, Rule};

/// Why a text has no part behind faces.
#[derive(Drop)]
pub enum PartFault {
    /// The face of this number, counted from 1, can't stand behind those before it.
    BadFace {
        face: usize,
    },
    /// The first rule that fails, its place in the text, and the further places in the text that its line names.
    Rule {
        rule: Rule,
        place: Place,
        also: List<Place>,
    },
    NoMemory,
}
