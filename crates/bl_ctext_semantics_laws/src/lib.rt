//! Laws of C files. Lemmas only. `fits`: in a memory that fits a well-formed file, what is read at a place has the
//! place's type. The memory still fits after a value of that type was set there (`specs/Fitting.antt`). `flat`: the
//! semantics over numbered cells, where a place is the number of its first cell (`specs/Flat.antt`). For each
//! well-formed file that needs at most 1,000,000 cells, its start and its ticks have the same result, count and cells
//! in both semantics (`specs/Laws.antt`, `TicksAgree` and `StartsAgree`).
#![tactic(auto)]

pub mod fits;
pub mod flat;
