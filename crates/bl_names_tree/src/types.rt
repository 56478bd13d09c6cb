//! Types as they are written, with positions in place of names.

use bl_parse_tree::types::RawNumber;
use bl_tree::{Box, Place, Scalar};

/// A type as it is written.
#[cycle(named_types)]
pub enum NamedType {
    Scalar(Scalar),
    /// A position in the program's structs.
    Struct(u32),
    /// How many elements, and their type.
    Array(NamedLength, Box<NamedType>),
}

impl Drop for NamedType {
    #[cycle(named_types)]
    fn drop(self) {
        match self {
            NamedType::Scalar(_) | NamedType::Struct(_) | NamedType::Array(_, _) => {}
        }
    }
}

/// The length of an array type.
#[derive(Clone, Copy, PartialEq, Eq, Debug)]
pub enum NamedLength {
    Number(RawNumber),
    /// Where its name stands, and a position in the program's constants.
    Constant(Place, u32),
}
