//! Rows of input parsed from bytes in pieces, and traces printed (docs/FORMATS.md, "Rows" and "Traces"). `Rows::feed`
//! and `finish` give the rows of the joined bytes, however they are cut, up to the first bad line, with its kind and
//! number (`specs/Reading.antt`, `rows_of`). `header` and `line` are the lines of a trace, `TraceText` is a trace that
//! grows by them, and `text` is the whole of it (`specs/Text.antt`, `text_of`). `input_columns` and `output_columns` are
//! those of a unit. `text` requires fewer than 2^32 - 1 rows. Want of memory aside.
#![tactic(auto)]

mod columns;
mod fault;
mod found;
mod in_place;
mod number;
mod record;
mod rows;
mod trace;
mod trace_text;
mod verdict;
mod written;

pub use columns::{input_columns, output_columns};
pub use fault::RowFault;
pub use rows::Rows;
pub use trace::{header, line, text};
pub use trace_text::TraceText;
