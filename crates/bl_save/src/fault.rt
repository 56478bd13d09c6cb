//! Why bytes aren't restored.

/// Why bytes are no state of a file.
#[derive(Clone, Copy, PartialEq, Eq, Debug)]
pub enum StateFault {
    /// They show it at this place: up to it they begin a saved state, and with the byte there they begin none or end
    /// too early.
    BadState { at: u32 },
}
