//! A body and the same body with first turns of its loops unrolled have one meaning. There is no code here: the contract of each function
//! is the law.
//!
//! Any loop may be unrolled or not, any number of times (`specs/Unrolls.antt`, `Unrolls`). Two control trees are related where the head of
//! each, and all that follows it as one block, are (`specs/Lines.antt`, `Related`). Related trees have the same answers
//! (`specs/Answers.antt`), and each step of the first is one of the second or a head that falls away (`specs/Steps.antt`). What a program
//! may show it may show with first turns unrolled (`specs/Runs.antt`).
#![tactic(auto)]

pub mod answers;
pub mod bodies;
pub mod runs;
pub mod steps;
pub mod unrolling;
