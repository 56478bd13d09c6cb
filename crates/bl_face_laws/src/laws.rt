//! Laws of printed faces.

ghost use Rattle.std.specs.Prelude.{ℕ, ◌≤◌, length};
ghost use Rattle.bl_face.specs.declared.face.Face.{Face};
ghost use Rattle.bl_face.specs.Reading.{most_bytes, ReadsAs};
ghost use Rattle.bl_face.specs.Text.{face_text};
ghost use Rattle.bl_face_laws.specs.Fits.{ItemsFit};

/// The text of a face is read as that face, if it isn't too long and the numbers of the face fit.
pub fn a_printed_face_is_read()
    ensures { (face : Face) → ItemsFit face.items → length (face_text face) ≤ most_bytes → ReadsAs (face_text face) face }
{}
