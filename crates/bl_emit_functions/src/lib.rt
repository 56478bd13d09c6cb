//! The C of functions (docs/C_SUBSET.md, "What `blechc` writes"). `function` makes exactly the specified C function of
//! a function (`specs/Functions.antt`, `function_code`), and `memory` the struct of its variables, where it holds any
//! (`memory_struct`); want of memory aside. `specs/Statements.antt` specifies the C of each statement (`codes_of`), and
//! `specs/Reads.antt` whether C reads a name (`reads_in_block`). For the crates above, `params` makes the parameters of
//! a unit's function for its inputs and outputs, and `parts` makes tests, loops and returns (`specs/Trees.antt`).
//! `bl_emit_functions_laws_simulation` has what the C means.
#![tactic(auto)]

mod again;
mod coded;
mod functions;
mod names;
pub mod parts;
mod reads;
mod statements;
mod variables;

pub use coded::{ArmsCoded, Coded, Free};
pub use functions::{function, memory, params};
