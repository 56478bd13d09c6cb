//! Faces, with what they keep.

ghost use Rattle.bl_face.specs.Keeps.{Keeps};

use crate::item::FaceItem;
use bl_tree::List;

/// What a file declares, in the order of the file.
#[derive(Drop)]
pub struct Face {
    pub items: List<FaceItem>,
    pub ghost keeps: { Keeps items },
}
