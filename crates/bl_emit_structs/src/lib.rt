//! The C structs that a program's types need (docs/C_SUBSET.md, "What `blechc` writes"). `structs_of` makes exactly the
//! specified ones (`specs/Structs.antt`, `structs_of`): the structs in their order and a struct for each array type,
//! each once and behind those that it uses; want of memory aside.
#![tactic(auto)]

mod collected;
mod program;

pub use program::structs_of;
