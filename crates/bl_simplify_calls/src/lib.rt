//! Whether all calls in C functions may be made, as the laws of `bl_simplify_laws` ask (`function_stands` of
//! `Tables.antt` there): a function that takes a frame gets its address first, and no further argument leads to something in
//! common with it. `stands` decides it for a function, where a table has the names of those that take a frame. `framed_names` is
//! one of those whose first parameter is named `f` or `s`.
#![tactic(auto)]

mod apart;
mod exprs;
mod functions;
mod stmts;

pub use functions::{Framed, framed_names, stands};
