//! Which lists of tokens nest no deeper than allowed and spell a program, and where the others fail first
//! (docs/LANGUAGE.md, "Grammar" and "Rules"). `check` answers Ok exactly where the tokens keep rule Depth
//! (`specs/Depth.antt`) and derive from the grammar (`specs/Grammar.antt`, `IsProgram`). Else it names the one of Depth
//! and Syntax that fails first, and its place (`specs/Rules.antt`, `FailsFirst`); want of memory aside. The place of
//! Syntax has both halves: the tokens before it begin a program, and with its token they begin none.
//!
//! Laws: one failure is the first, the tokens of a part are read in one way, and a reader knows what follows.
#![tactic(auto)]

mod choice;
mod depth;
mod expressions;
pub mod grammar;
mod items;
pub mod laws;
mod rules;
mod stack;
mod statements;

pub use rules::check;
