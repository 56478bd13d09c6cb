//! Why the generated program isn't run.

use bl_tree::Refusal;

/// Why the program of so many stages isn't run.
#[derive(Drop)]
pub enum Unrun {
    /// There would be more stages than 2,000.
    TooLarge { stages: u32 },
    /// A rule refuses its text, or memory is wanting.
    Refused(Refusal),
}
