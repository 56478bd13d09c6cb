//! What blocks see of an activity.

use bl_emit_acts::UnitSite;
use bl_machine_transitions::RunNumbers;
use bl_tree::Text;

/// An activity as its blocks see it.
#[derive(Clone, Copy)]
pub struct ActivityView<'a> {
    /// What its statements see.
    pub site: UnitSite<'a>,
    /// Which of its variables have a copy of what they were when the tick began.
    pub copies: &'a [bool],
    /// The words of its nodes by their numbers.
    pub words: &'a [Text],
    /// The numbers of its `run`s.
    pub runs: &'a RunNumbers,
    /// How many values its counters have.
    pub sizes: &'a [u32],
    /// Which counters have a copy of what they held when the tick began.
    pub read: &'a [bool],
    /// Which units before it, activities, remember variables.
    pub remembers: &'a [bool],
}
