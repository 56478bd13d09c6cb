//! The rules Duplicate, Unknown and Kind (docs/LANGUAGE.md, "Scopes", "Kinds" and "Rules"), judged in one walk with a
//! map for each open scope. `check` answers Ok exactly where none of the three fails. Else it names the first that
//! fails, at its least places (`specs/Rules.antt`, `FailsFirst`); want of memory aside. A use is bound (`Binds`) to the
//! declaration of its name that the innermost scope around it has, of those that are visible there.
//!
//! `check_behind` judges a program behind headings: names that are declared before it in the scope of the file
//! (`FailsBehind`). Only what stands in the program is judged. `check` is the case without headings.
//!
//! Law: one failure is the first.
#![tactic(auto)]

mod expr;
pub mod heading;
mod item;
mod judge;
pub mod kind;
pub mod laws;
mod rules;
pub mod scopes;
mod stmt;

pub use rules::{check, check_behind};
