//! The parallel meaning of programs: control trees, their steps, and the traces that all interleavings allow
//! (docs/LANGUAGE.md, "Control trees"). `Means` (`specs/Means.antt`) is the meaning, `specs/Steps.antt` says what one
//! step is and `specs/Ticks.antt` what a tick. That ticks end and none is stuck is stated here (`specs/Reaches.antt`,
//! `Bounded` and `NeverStuck`), and `bl_rules_laws` shows both of every accepted text.
//!
//! Laws: the listed points of a tree are exactly its steps, in source order and each once; nothing may act in a settled
//! tree; runs reach only what steps and waking leave of the entry's body (`specs/Residual.antt`, `specs/Laws.antt`). The
//! functions on trees of the code give what their definitions say of the plain tree (`specs/Nodes.antt`, `control_of`).
#![tactic(auto)]

pub mod copying;
pub mod instance;
pub mod laws;
pub mod node;
pub mod paths;
pub mod runs;
pub mod sequence;
pub mod settle;
pub mod waking;
