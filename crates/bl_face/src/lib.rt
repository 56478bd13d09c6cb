//! The face of a source file: what the file declares, as other files see it. A `Face` is a value; `print_face` gives its text
//! (`specs/Text.antt`, `face_text`), with a line for each item. `read_face` answers Ok exactly where the tokens of a text spell
//! a face (`specs/Reading.antt`, `ReadsAs`), and with that face. Else it names the place where the text stops being one
//! (`NotFaceAt`); want of memory aside.
#![tactic(auto)]

mod class;
mod copy;
mod face;
mod fault;
mod item;
pub mod laws;
mod print;
mod read;
mod reader;
mod same;
mod state;

pub use face::Face;
pub use fault::FaceFault;
pub use item::{FaceBase, FaceField, FaceItem, FaceType};
pub use print::print_face;
pub use read::read_face;
