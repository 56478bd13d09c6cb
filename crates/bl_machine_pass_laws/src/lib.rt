//! One pass over an activity by registers: the invariant between its turns (`specs/Turns/Invariant.antt`,
//! `PassInvariant`), how a tree stands in a body with its rules and counters (`specs/Turns/Sits.antt`), and what each
//! turn preserves (`specs/Turns/Laws.antt`). Lemmas only, on the nodes of a body, their keys, flags, spots and numbers.
//! `bl_machine_pass_laws_turns` has whole passes.
#![tactic(auto)]

pub mod flags;
pub mod keys;
pub mod numbers;
pub mod rooted;
pub mod same;
pub mod slots;
pub mod spots;
