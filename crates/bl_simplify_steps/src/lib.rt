//! What is known after the statements of a C function, and where functions and loops begin (`steps`); conditions that have one
//! truth with others there (`exchange`). What is told is one of the rules of `bl_simplify_laws` (`Rules.antt` there, `After`;
//! `Conditions.antt`, `TestsAlike`), want of memory aside. What isn't told is left out. How many cases are told apart,
//! and which counters are cut, is a choice (`cases`, `counters`).
#![tactic(auto)]

pub mod begin;
pub mod cases;
pub mod counters;
pub mod exchange;
mod forget;
mod sets;
pub mod steps;
mod written;
