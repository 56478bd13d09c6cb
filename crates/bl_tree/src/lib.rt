//! What every other crate speaks of, as plain data to contracts: scalar types and their operators, places, the rules by
//! name, tokens, static paths, typed programs, tick graphs, C trees, values, rows and traces, and the containers
//! `List`, `Box` and `Text`.
//!
//! `checked` and `checked_one` give the exact number, modulo the width for bits, and None exactly where an operator
//! traps (`specs/Numbers.antt`, `checked_of`). A `Program` keeps `IsWellTyped` (`specs/Program.antt`): names, types
//! (`specs/Typing.antt`), roles, returns and depths stand, branches keep apart, and statements of one place have the
//! same effects. What a statement reads and writes and whether it may end in the tick in which it begins are defined
//! here too (`specs/Effects.antt`, `specs/Instant.antt`), and so are the first of several failures (`specs/Rules.antt`)
//! and the columns of a unit (`specs/Ports.antt`).
//!
//! `List`, `Box`, `Text` and the trees have a `drop` of their own, which is called where a value ends. A derived one is
//! written out in each function there, with all variants, and proved in each anew.
#![tactic(auto)]

mod boxed;
pub mod c;
pub mod graph;
mod list;
mod memory;
pub mod number;
pub mod place;
pub mod program;
pub mod row;
pub mod rule;
pub mod scalar;
pub mod slices;
pub mod static_path;
mod text;
pub mod token;
pub mod tree;
pub mod value;

pub use boxed::Box;
pub use list::List;
pub use memory::NoMemory;
pub use number::{checked, checked_one};
pub use place::Place;
pub use program::Program;
pub use row::{Column, Last, Row, Trace};
pub use rule::{Failure, Further, Refusal, Rule};
pub use scalar::{Op, Range, Scalar, Width};
pub use static_path::Static;
pub use text::Text;
pub use value::Value;
