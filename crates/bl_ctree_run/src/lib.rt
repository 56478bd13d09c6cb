//! Programs that run by the parallel meaning: a `Tree` is started, woken with a row, asked for the points that may act,
//! and stepped (docs/LANGUAGE.md, "Control trees"). `count` tells how many these are, and
//! `actions` lists all, from left to right in source order (`Points.antt` of `bl_ctree`, `points`). `act` leaves exactly
//! the tree and the store that the chosen one is to leave (`specs/Running.antt`, `stepped`); where its action traps, and
//! after want of memory, all is as it was (`Acted`). `step` does the same and tells what the chosen one does. `settled`,
//! `ended` and `outs` tell how the tick stands. `Tree::start` asks that the program has fewer than 2^32 instances;
//! `bl_rules_laws` shows that an accepted one has at most 4,096.
//!
//! `count` keeps what it finds of the branches of the outermost `cobegin` that has begun (`bl_ctree_enabled`, `src/spine.rt`).
//! As long as these act, `act` puts the tree of the one that acts in the place of the old one and lists its points alone
//! (`src/listed.rt`); all else, as the end of that `cobegin`, is listed and copied whole. `wake` changes the tree where it
//! lies if nothing begins in it then (`src/waking.rt`), and the store if all its values are numbers.
#![tactic(auto)]

mod action;
mod after;
mod begin;
mod chosen;
mod enabled;
mod listed;
mod point;
mod points;
mod spine;
mod start;
pub mod tree;
mod waking;
mod writers;

pub use action::{Action, Step};
pub use tree::Tree;
