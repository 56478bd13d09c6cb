//! Source programs with positions in place of names (docs/INTERNALS.md, "Named trees"). `resolve` answers as `check` of
//! `bl_names_scopes` does, and its tree is the definition `named_program` (`specs/Named.antt`): each use has the position of
//! the declaration to which it is bound, and each position is that of something that is declared before its use
//! (`IsPlaced` of `bl_names_tree`). It is a second walk, which opens the same scopes.
//!
//! `resolve_behind` names a program behind headings, as `check_behind` of `bl_names_scopes` judges it. In each list of its tree
//! something without parts stands for each heading, before what stands in the program (`named_behind`), so that each
//! position is that of the declaration. `resolve` is the case without headings.
#![tactic(auto)]

mod expr;
mod item;
mod program;
mod state;
mod stmt;

pub use program::{resolve, resolve_behind};
