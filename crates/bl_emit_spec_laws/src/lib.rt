//! The relation between the C function of an activity and passes of its instances by rules, as definitions. They say
//! where memory encodes the state of an instance and its callees (`specs/Calls/Memories.antt`), and what it represents
//! in the middle of a pass (`specs/Calls/Invariant.antt`) and after a call (`specs/Calls/Calls.antt`). Lemmas only:
//! registers in memory (`registers`, `own`), counters (`within`), blocks in the order of their nodes (`placed`,
//! `passes`, `activities`), the known functions (`tables`), and what is preserved (`remember`, `cleared`, `fits`).
//! `bl_emit_spec_laws_nodes` has the blocks of single nodes, and `bl_emit_spec_laws_simulation` those of `run`s and the
//! whole.
#![tactic(auto)]

pub mod activities;
pub mod cleared;
pub mod fits;
pub mod own;
pub mod passes;
pub mod placed;
pub mod registers;
pub mod remember;
pub mod tables;
pub mod within;
