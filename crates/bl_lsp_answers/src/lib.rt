//! What is published of a text, as JSON: a rule that fails, with its number, its name and a sentence, its place in lines and UTF-16 units, and
//! its further places. `diagnostic`, `published` and `cleared` make what `specs/Diagnostics.antt` says, and `sentence` is that of
//! `specs/Sentences.antt`. No text is judged here.
#![tactic(auto)]

mod diagnostics;
mod sentences;

pub use diagnostics::{cleared, diagnostic, published};
