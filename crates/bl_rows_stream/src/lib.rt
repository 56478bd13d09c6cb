//! Runs of C files over files of rows, piece by piece, from the state of a live runner. `stream` writes to the sink
//! exactly the text of the runner's trace over the rows left of the named file, however they are cut. It answers how
//! that ends (`specs/Streams.antt`, `Streamed` and `finish_of`). `count` writes the statement counts of the ticks
//! (`specs/Reports.antt`), and `run_silently` needs no sink. The contracts of all three say what is left of the file,
//! and what the runner is after the run (`Reported`). ReadFault is answered only where the file's count of faults rose;
//! then the rows of the complete lines that were read have run (`BreaksOff`). WriteFault is answered only where the
//! sink's count rose. With it, and where memory is refused, a prefix of the text was written. `stream` and `count` keep in
//! step with the file: the text of the rows in a piece is written before the next piece is requested (`InStep`). No byte
//! of the file is requested that could stand behind the first one of line 1,000,001 (`ReadsLines`).
//!
//! `gather` reads all rows of a file before any of them is used; where a read fails, it has the rows of complete lines.
//! `finish_over` says how a run over them ends (`specs/Gathered.antt`).
//!
//! Laws: the rows of bytes fit the columns.
#![tactic(auto)]

mod finish;
mod gathered;
pub mod laws;
mod pieces;
mod streaming;
mod ticks;

pub use finish::Finish;
pub use gathered::{Gathering, RowsEnd, finish_over, gather};
pub use streaming::{count, run_silently, stream};
pub use ticks::Report;
