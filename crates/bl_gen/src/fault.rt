//! Why no program is made.

/// Why no program of so many stages is made.
#[derive(Clone, Copy, PartialEq, Eq, Debug)]
pub enum GenFault {
    /// There would be `n` stages, which are more than 2,000.
    TooLarge { n: u32 },
    NoMemory,
}
