//! The C of single nodes of an activity simulates them: changes of registers, tests and acts, and what an instance sees
//! of them. Lemmas only. Definitions (`specs/Calling.antt`) state the pre- and postcondition of the C call of a `run`.
//! At the call, memory represents what a pass of the callee begins with (`RunsEstablish`). After it, memory represents
//! what the pass leaves (`RunsLeave`), and a target has the result (`TargetsSeen`). So the blocks of `run`s simulate a
//! pass by rules (`RunsSimulate`). `bl_emit_spec_laws_simulation` has these lemmas. They require that nothing written
//! for a `run` overlaps, and that what its arguments name under a `prev` is copied (`RunsStand`).
#![tactic(auto)]

pub mod copied;
pub mod fitting;
pub mod points;
pub mod prevs;
pub mod seen;
pub mod views;
