//! The C of expressions, paths and acts (docs/C_SUBSET.md, "What `blechc` writes"). `expression` makes exactly the
//! specified C expression (`specs/Expressions.antt`, `made_of`), and `place` the specified place (`stands`). `act`
//! makes the specified statements of an assignment, a declaration or a call of a function without a result
//! (`specs/Acts.antt`, `act_code`); want of memory aside. `c_type` gives the C type of a type (`specs/Types.antt`).
//! `definition` and `array` give the C struct of a struct or an array (`specs/Structs.antt`), and `specs/Places.antt`
//! says where variables stand. `bl_emit_acts_laws_simulation` has what the C means.
#![tactic(auto)]

mod acts;
mod decided;
mod expressions;
mod home;
mod made;
mod operators;
pub mod parts;
mod places;
mod site;
mod structs;
mod types;

pub use acts::{act, copied};
pub use expressions::{expression, place};
pub use home::Home;
pub use made::Made;
pub use operators::{argument, code, hidden};
pub use places::{home_of_var, is_activity, is_alone, scalar_of_variable, variable};
pub use site::UnitSite;
pub use structs::{array, definition};
pub use types::{c_type, scalar_in, scalar_in_c};
