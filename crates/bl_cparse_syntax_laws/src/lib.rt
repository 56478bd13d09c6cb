//! Laws of C texts. Lemmas only. `spelled`: bytes are cut into tokens in one way, and spell at most one file, places
//! aside (`specs/Placeless.antt`, `SameButPlaces`). The tokens behind the prelude spell a file iff they are a text of
//! the grammar. `derived`: the tokens of structs and functions that have a spelling are a text of the grammar.
#![tactic(auto)]

pub mod derived;
pub mod spelled;
