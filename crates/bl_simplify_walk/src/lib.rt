//! A block of a C function that does the same with fewer tests: what follows an `if` stands in its branches where that makes the
//! text no longer, and what is known there decides further conditions. `walk` goes over the statements, `made` puts new ones
//! together, `rules` has the laws of their forms (`bl_simplify_laws`). `parts` takes old statements apart, `front` holds new
//! blocks. `needed` forgets what nothing that follows may read (`reads`). `weight` and `reach` say how far the walk goes.
#![tactic(auto)]

pub mod front;
mod joins;
pub mod made;
pub mod needed;
pub mod parts;
pub mod reach;
pub mod reads;
pub mod rules;
mod same;
pub mod walk;
pub mod weight;
