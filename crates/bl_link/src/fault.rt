//! Why parts aren't linked.

use bl_tree::{Place, Rule};

/// Why parts aren't the files of an accepted program. Parts and files are counted from 1.
#[derive(Clone, Copy, PartialEq, Eq, Debug)]
pub enum LinkFault {
    /// The part of this number wasn't judged behind the faces of the parts before it.
    Face { part: u32 },
    /// The part of this number is the last and wasn't judged as the last file, or the other way round.
    Last { part: u32 },
    /// The first rule that fails for the joined texts, with the file in which its place begins, and the place there.
    Rule { file: u32, rule: Rule, place: Place },
    NoMemory,
}
