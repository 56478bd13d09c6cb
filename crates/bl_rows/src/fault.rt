//! Faults of row files.

/// Why row bytes give no further row (docs/FORMATS.md, "Rows"). Lines are counted from 1.
#[derive(Clone, Copy, PartialEq, Eq, Debug)]
pub enum RowFault {
    /// The first record isn't `tick` and the names of the inputs in order, or there is none.
    BadHeader { line: u32 },
    /// A later record isn't the next tick's number and one value of its type for each input, or the line is past
    /// the last that a row file may have.
    BadRow { line: u32 },
    /// The line has more bytes than a line may have.
    LongLine { line: u32 },
    /// Memory was refused.
    NoMemory,
}
