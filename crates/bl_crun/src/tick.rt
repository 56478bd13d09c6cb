//! What ticks come to.

/// What a tick comes to.
#[derive(Clone, Copy, PartialEq, Eq, Debug)]
pub enum TickAnswer {
    /// A row of outputs, and the run can go on.
    Row,
    /// A row of outputs, and the run has ended.
    Ended,
    Trap,
}
