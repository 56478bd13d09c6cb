//! What steps of the machine come to.

/// What a step comes to.
#[derive(Clone, Copy)]
pub enum Flow {
    Goes,
    /// The first function has returned a number.
    Done(i128),
    Trapped,
}
