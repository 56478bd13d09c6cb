//! Machines with fewer and larger blocks. Two neighbouring blocks of an activity can be merged if the only successor of
//! the first, joins aside, is the second, and its only predecessor is the first (`CouldFollow` of `bl_machine`).
//! `merge` merges such neighbours until none are left. The new machine has the same program. For each activity, it has
//! the same nodes in the same order and the same numbers of resting places (`specs/Merged.antt`, `IsMergedFrom`), and
//! no two neighbours can be merged (`NothingLeft`). `merge` walks once over the edges of each tick graph and once over
//! the nodes of each activity, and fails only if memory runs out. `nodes_of` gives the nodes of blocks, one block
//! after another.
#![tactic(auto)]

mod groups;
mod machines;
mod ways;

pub use groups::nodes_of;
pub use machines::merge;
