//! Laws of faces as texts.

ghost use Rattle.std.specs.Prelude.{◌≡◌, ℕ, List};
ghost use Rattle.bl_face.specs.declared.face.Face.{Face};
ghost use Rattle.bl_face.specs.Reading.{ReadsAs};

/// A text spells at most one face.
pub fn a_text_has_one_face()
    ensures { (text : List ℕ) (face other : Face) → ReadsAs text face → ReadsAs text other → face.items ≡ other.items }
{}
