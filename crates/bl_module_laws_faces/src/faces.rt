//! What the faces of good files declare.

ghost use Rattle.bl_module_laws_faces.specs.Laws.{FaceDeclares, GoodFacesAreRead, TreeDeclares, TreesHaveFaces};

use bl_face_laws::laws::a_printed_face_is_read;
use bl_lex::laws::tokens_are_one;
use bl_parse_laws::kept::what_is_spelled_keeps;
use bl_parse_laws::spelled::a_text_has_one_tree;

/// The face of a tree that passes behind faces stands behind them, and so does that of a text that is good behind them. With it the faces declare what
/// is known at the end of the tree.
pub fn faces_declare()
    ensures tree { TreeDeclares }
    ensures text { FaceDeclares }
{
    tokens_are_one();
    a_text_has_one_tree();
    what_is_spelled_keeps();
}

/// Each well-formed tree has a face.
pub fn trees_have_faces()
    ensures { TreesHaveFaces }
{}

/// The face of a text that is good behind faces is read from what is printed of it.
pub fn good_faces_are_read()
    ensures { GoodFacesAreRead }
{
    a_printed_face_is_read();
    faces_declare();
}
