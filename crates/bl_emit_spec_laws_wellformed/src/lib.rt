//! Laws of the C text of activities: names, numbers, spelling, and size. Lemmas only.
//! `bl_emit_spec_laws_wellformed_bodies` has that bodies are well formed.
#![tactic(auto)]

pub mod chains;
pub mod closed;
pub mod costs;
pub mod counts;
pub mod machines;
pub mod names;
pub mod needed;
pub mod nodes;
pub mod numbers;
pub mod rests;
pub mod spelled;
pub mod texts;
