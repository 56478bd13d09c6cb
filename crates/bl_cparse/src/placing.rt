//! The places of a file's parts: a walk that goes over the file and its text side by side and sets them where they lie.

mod expr;
mod item;
mod spot;
mod stmt;

pub use item::{funcs, structs};
pub use spot::Spot;
