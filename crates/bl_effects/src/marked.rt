//! What a rule's line names.

use bl_tree::{Place, Static};

/// A static path, and the place of the act that writes it or of the argument or target that it is of.
#[derive(Drop)]
pub struct Marked {
    pub place: Place,
    pub path: Static,
}
