//! Definitions of which variables a body reads under `prev` (`specs/Prevs.antt`, `prevs_in_expr`), and of what holds of these reads in each
//! program of a source text: each stands behind the declaration of its variable (`specs/Declared.antt`, `FromText`). `docs/LANGUAGE.md`, "How a
//! program runs", says what `prev` means. The crate has no code.
#![tactic(auto)]
