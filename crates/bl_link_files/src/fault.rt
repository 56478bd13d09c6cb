//! Why source files have no program.

use bl_tree::{List, Place, Rule};

/// Why source files have no program. Files are counted from 1.
#[derive(Drop)]
pub enum ProgramFault {
    /// A read of a file failed.
    Unread,
    /// The first rule that fails for the file of this number behind the faces of those before it.
    InTurn {
        file: u32,
        rule: Rule,
        place: Place,
        also: List<Place>,
    },
    /// The first rule that fails for the joined texts, with the file in which its place begins, and the place there.
    Together {
        file: u32,
        rule: Rule,
        place: Place,
    },
    NoMemory,
}
