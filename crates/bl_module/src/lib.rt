//! Texts as files of a program, each judged behind what the files before it declare. `compile` returns the part that a text is behind
//! faces; `face_behind` returns its face alone. Unless memory runs out, each returns Ok iff the faces stand and no rule fails for the
//! text behind them (`specs/Parts.antt`, `IsGoodBehind`). Otherwise it returns the first face that can't stand (`specs/Faces.antt`,
//! `IsBadFace`), or the first failing rule with its first place (`specs/Rules.antt`, `FirstFailingIn`).
//!
//! Each judge of the rules begins with what the faces declare (`specs/Behind.antt`, `behind_items`), the head alone of each unit. Only the
//! text itself is judged. Its face is that of its tree, with the types, values and lengths that are known at the end of the text
//! (`specs/Own.antt`, `face_items`).
#![tactic(auto)]

mod behind;
mod compiled;
mod faces;
mod fault;
mod item;
mod judge;
pub mod laws;
mod made;
mod names;
mod own;
mod params;
mod part;
mod taken;
mod tree;
mod types;
mod walk;

pub use compiled::{compile, face_behind};
pub use fault::PartFault;
pub use part::Part;
pub use taken::{Taken, has_mark};
