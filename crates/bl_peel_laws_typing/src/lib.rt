//! A typed program stays well-typed where the bodies of its activities have first turns of loops. There is no code here: the contract of
//! each function is the law.
//!
//! Statements that are copied fit where they are put, and so do the `if`s that are made of tests of loops. Blocks nest at most twice as deep
//! as those of the source, `return`s stand where they stood, and branches keep apart (`specs/Typing.antt`). Only the field of `IsWellTyped`
//! on places and the one on `run`s are premises.
#![tactic(auto)]

pub mod bodies;
pub mod programs;
