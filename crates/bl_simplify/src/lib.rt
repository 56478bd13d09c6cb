//! C files with fewer statements that do the same. `simplified` makes one of a well-formed file. It has the trace of that
//! file over all rows, the same structs, and functions of the same names, parameters and results. It is well formed, needs
//! no more cells, and no function of it can execute more statements (`specs/Simplified.antt`, `IsSimplified`).
//!
//! That bodies do the same is proved (`bl_simplify_laws`), where counters have numbers that ticks leave
//! (`bl_simplify_laws_frames`). Form, cells and costs are looked at here: where the new file lacked one of these, the given
//! one is the answer. So it is where long functions are nearly all of it, which stay anyway.
#![tactic(auto)]

mod copies;
mod costs;
mod counters;
mod files;
mod functions;

pub use files::simplified;
