//! Types as they are written.

use crate::name::Name;
use bl_tree::{Box, Place, Scalar};

/// A type as it is written.
#[cycle(raw_types)]
pub enum RawType {
    Scalar(Scalar),
    /// The struct of this name.
    Struct(Name),
    /// How many elements, and their type.
    Array(RawLength, Box<RawType>),
}

impl Drop for RawType {
    #[cycle(raw_types)]
    fn drop(self) {
        match self {
            RawType::Scalar(_) | RawType::Struct(_) | RawType::Array(_, _) => {}
        }
    }
}

/// The length of an array type.
pub enum RawLength {
    Number(RawNumber),
    /// The constant of this name.
    Constant(Name),
}

impl Drop for RawLength {
    fn drop(self) {
        match self {
            RawLength::Number(_) | RawLength::Constant(_) => {}
        }
    }
}

/// A number without sign, where a greater value than 2^64 is kept as 2^64.
#[derive(Clone, Copy, PartialEq, Eq, Debug)]
pub struct RawNumber {
    pub place: Place,
    pub value: u128,
}
