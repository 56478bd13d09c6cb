//! Why a text is read as no face.

/// Why a text is read as no face.
#[derive(Clone, Copy, PartialEq, Eq, Debug)]
pub enum FaceFault {
    /// Where the text stops being one.
    NotFace { at: u32 },
    NoMemory,
}
