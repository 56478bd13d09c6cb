//! Why a source file has no face behind interface files.

use bl_module::PartFault;

/// Why a source file has no face behind interface files.
#[derive(Drop)]
pub enum FilesFault {
    /// A read of a file failed.
    Unread,
    /// The interface file of this number, counted from 1, is no face, and where it stops being one.
    NotFace { file: usize, at: u32 },
    /// The files were read, and a face of theirs can't stand, or a rule fails for the source.
    NoPart(PartFault),
    NoMemory,
}
