//! Why a text is no file of the C subset.

ghost use Rattle.bl_cparse.specs.Places.{WantsMemory};

use bl_tree::NoMemory;
use std::alloc::AllocError;

/// Why no file was read.
#[derive(Clone, Copy, PartialEq, Eq, Debug)]
pub enum CRefusal {
    /// The bytes spell no file; `at` is where it shows (docs/C_SUBSET.md, "Where a text fails").
    NotSubset { at: u32 },
    NoMemory,
}

impl From<AllocError> for CRefusal {
    ghost from_gives = { λ _ e. WantsMemory e };

    fn from(_: AllocError) -> CRefusal {
        CRefusal::NoMemory
    }
}

impl From<NoMemory> for CRefusal {
    ghost from_gives = { λ _ e. WantsMemory e };

    fn from(_: NoMemory) -> CRefusal {
        CRefusal::NoMemory
    }
}
