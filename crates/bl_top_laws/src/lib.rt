//! Laws of the one call. Lemmas only. What `build` writes of a source text is correct for it (`specs/Theorem.antt`,
//! `Correct`): no rule fails for the source, and the C text has exactly the trace that the semantics of its program allows.
//! A call of `build` in which nothing fails decides whether a rule fails, and names the first one on `notes`
//! (`specs/Correct.antt`). A call in which nothing fails ends with the status that the contents of its files
//! say (`specs/Complete.antt`, `IsDue`); a call of `drive` with the one that its plants say (`specs/Driven.antt`).
//! docs/THEOREM.md begins with the formula.
#![tactic(auto)]

pub mod complete;
pub mod theorem;
