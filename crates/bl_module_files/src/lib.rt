//! Files of a program, read in turn and judged. Unless memory runs out or a read fails, `face_of_file` returns the face of a source file behind
//! interface files (`specs/Judged.antt`, `IsFaceOfFile`). Otherwise it reports the first interface file that is no face, the first face that
//! can't stand, or the first rule that fails for the source (`FilesStop`). It reads the source first, and then all interface files in order,
//! before it judges a face. So a file that is named twice is empty the second time.
//!
//! A file is read up to one byte beyond the greatest accepted length. What is stated of the bytes that were read holds of the whole file.
#![tactic(auto)]

mod faces;
mod fault;
mod judged;
pub mod laws;

pub use faces::FILE_LIMIT;
pub use fault::FilesFault;
pub use judged::face_of_file;
