//! Machines: the intermediate form of an accepted program, from which its C text is made. For each activity, a machine
//! has the nodes of its tick graph in the order of one pass. Some of them are joined into blocks. Each place where the
//! activity may rest between ticks has a number: a counter, and the counter's value while the activity rests there
//! (docs/INTERNALS.md, "Machines"). `Machine::of` makes the machine of an accepted program, with blocks of one node. It
//! fails only if memory runs out.
//!
//! The invariant of machines is `IsMachine` (`specs/Machines.antt`). Every node of an activity stands once, before all
//! nodes to which edges lead from it. The nodes of a block could be one (`specs/Blocks.antt`, `Ordered`). Branches that
//! rest at once have different counters, and other parts share one. The values of each counter count up from one, so no
//! two places have one number (`specs/Counters.antt`, `specs/Slots.antt`).
#![tactic(auto)]

mod activities;
mod layout;
mod machine;
mod order;
mod slots;

pub use machine::{Activity, Machine};
pub use slots::Slot;
