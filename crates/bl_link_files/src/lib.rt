//! The program of source files, read in turn. `program_of_files` returns it if each file is good behind the faces of those before it and no
//! rule fails for the joined texts (`specs/Programs.antt`, `IsProgramOfFiles`). Otherwise it reports the first rule that fails for one of the
//! files behind the faces of those before it. If all files are good, it reports the rule that fails for their joined texts, Frames or Cells
//! (`HaveNoProgram`). It also reports a lack of memory and reads that fail. A rule that fails for a file comes before a later file that can't be
//! read. A file that is named twice is empty the second time.
//!
//! A file is read up to one byte beyond the greatest accepted length. What is stated of the bytes that were read holds of the whole file. The
//! texts are judged together, once (`bl_link_together`); only if that fails are they judged in turn.
#![tactic(auto)]

mod fault;
mod program;
mod read;
mod turns;

pub use fault::ProgramFault;
pub use program::program_of_files;
