//! The places that C functions name (`specs/Places.antt`): each with those in its indices, in the order in which they
//! stand. `in_block` lists them.
#![tactic(auto)]

mod exprs;
mod stmts;

pub use exprs::{in_call, in_expr, in_indices};
pub use stmts::in_block;
