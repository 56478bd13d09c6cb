//! Want of memory.

use std::alloc::AllocError;

/// Memory was refused. It is a call's one answer that nothing but the machine decides.
#[derive(Clone, Copy, PartialEq, Eq, Debug)]
pub struct NoMemory;

impl From<AllocError> for NoMemory {
    fn from(_: AllocError) -> NoMemory {
        NoMemory
    }
}
