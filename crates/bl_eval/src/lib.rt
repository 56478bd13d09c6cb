//! What the expressions and acts of a typed program do (docs/LANGUAGE.md, "How a program runs"). `value` gives exactly
//! the value of an expression, and `act` what an assignment, a declaration or a call leaves, traps included
//! (`specs/Standing.antt`, `value_in_unit` and `outcome_in_unit`; case by case in `specs/Meaning.antt` and
//! `specs/Functions.antt`). After a trap or want of memory nothing has changed, since an act is first worked out as a
//! list of changes and then made.
//!
//! Laws: a value of an expression is one of its type, and an act leaves values of the variables' types
//! (`specs/Values.antt`, `value_fits`).
#![tactic(auto)]

mod copying;
mod datum;
mod evaluation;
pub mod laws;
mod operators;
pub mod parts;
mod steps;
mod values;
mod zero;

pub use copying::copy;
pub use values::{Did, Got, Values, act, value};
pub use zero::zero_value;
