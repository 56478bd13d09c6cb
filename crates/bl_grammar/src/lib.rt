//! Grammars that are read from the left with one token of lookahead: what a part derives (`specs/Derivations.antt`,
//! `Derives`), what is asked of the tables of such a grammar (`specs/Predictive.antt`, `IsPredictive`), and what a
//! stack of symbols stands for (`specs/Runs.antt`, `StackCompletes`). The code has only the types of symbols and of
//! productions. The theorems stand in `proofs/`, and the contracts of `bl_parse_syntax` and `bl_cparse_syntax` rest on
//! them.
#![tactic(auto)]

pub mod productions;
pub mod symbol;

pub use productions::{Productions, needed, optional};
pub use symbol::Symbol;
