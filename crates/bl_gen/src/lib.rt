//! Large programs for measurements. `program` gives the source text of a program with so many stages. Each stage reads
//! in every tick what the one before it wrote in the same tick. It is exactly the text of `specs/Text.antt`
//! (`program_text`) for 1 to 2,000 stages; otherwise it reports their number; want of memory aside. `input_rows` gives
//! the rows over which the program is run, the numbers 1 to 100. `report` gives the four lines that report a run's
//! outputs (`specs/Outputs.antt`).
#![tactic(auto)]

mod append;
mod fault;
mod outputs;
mod text;

pub use fault::GenFault;
pub use outputs::{input_rows, report};
pub use text::program;
