//! The rules of a pass as a list, by numbers: of each node of an activity's body, in source order, what is asked before it acts, what is done
//! there, and what changes then (docs/INTERNALS.md, "Machines"). `bl_machine_pass` tells the same of the nodes themselves. Here nodes and resting places
//! are told by where they stand in source order, so that one walk over the body lists all rules (`specs/Listed.antt`, `listed`): `rules`.
#![tactic(auto)]

mod changes;
mod joins;
mod nodes;
mod numbers;
mod ranks;
mod rests;
mod size;
mod table;
mod transition;
mod walk;

pub use numbers::RunNumbers;
pub use transition::{Age, Change, Condition, Needed, Run, Silent, Task, Transition};
pub use walk::rules;
