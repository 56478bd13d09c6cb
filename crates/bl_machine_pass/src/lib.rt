//! The semantics of one pass over an activity, node by node (docs/INTERNALS.md, "Machines"). A pass has registers
//! (`specs/Registers.antt`). They hold the counters now and at the start of the tick, the waiting nodes, what has begun
//! in this tick, and whether the body has ended. Each node has a rule: what it asks before it acts, and how the
//! registers change afterwards (`specs/Transitions.antt`, `rules`). The crate has no code.
#![tactic(auto)]
