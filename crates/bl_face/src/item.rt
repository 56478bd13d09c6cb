//! What a file declares, as other files see it.

use bl_tree::tree::UnitKind;
use bl_tree::{List, Scalar, Text};

/// A type without arrays.
#[derive(Drop)]
pub enum FaceBase {
    Scalar(Scalar),
    /// By its name.
    Struct(Text),
}

/// A type. Arrays in arrays are lengths in a list, since a text may nest so many that no recursion goes down them.
#[derive(Drop)]
pub struct FaceType {
    /// The outermost array comes first.
    pub lengths: List<u32>,
    pub base: FaceBase,
}

/// A field of a struct, or a parameter of a unit.
#[derive(Drop)]
pub struct FaceField {
    pub name: Text,
    pub ty: FaceType,
}

/// A struct, a constant or a unit of a file.
pub enum FaceItem {
    /// The name and the fields.
    Struct(Text, List<FaceField>),
    /// The name, the type and the value.
    Constant(Text, Scalar, i128),
    /// The kind, the name, the inputs, the outputs and the result.
    Head(UnitKind, Text, List<FaceField>, List<FaceField>, Option<Scalar>),
}

impl Drop for FaceItem {
    fn drop(self) {
        match self {
            FaceItem::Struct(_, _) | FaceItem::Constant(_, _, _) | FaceItem::Head(_, _, _, _, _) =>
                {}
        }
    }
}
