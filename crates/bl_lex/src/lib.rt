//! The tokens of source texts, and what the profile leaves out of them (docs/LANGUAGE.md, "Tokens"). `lex` answers Ok
//! exactly with the one list of tokens of the text (`specs/Tokens.antt`, `Lexes`). Else it names the first of the rules
//! Size, Lex and Profile that fails, at its first place (`specs/Rules.antt`, `FailsFirst`); want of memory aside.
//! `tokens_up_to` judges no rule. It answers the tokens of a text up to the first byte that begins none (`FrontOf`), for
//! languages with the same tokens whose faults are told otherwise.
//!
//! Laws: a text has one list of tokens, tokens stand in order, the text of a name is a name, and one failure is the
//! first. A text has one front, and tokens are those of the text exactly where they are its front up to its end.
#![tactic(auto)]

mod front;
pub mod laws;
mod number;
mod piece;
mod reserved;
mod scan;
pub mod sign;

pub use front::{Front, tokens_up_to};
pub use scan::lex;
