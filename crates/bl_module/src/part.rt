//! Parts of programs.

use bl_face::Face;
use bl_tree::List;
use std::marker::Model;

/// A text behind the faces of the texts before it, for which no rule fails.
#[derive(Drop)]
pub struct Part {
    text: List<u8>,
    uses: List<Face>,
    face: Face,
    last: bool,
}

impl Model for Part {
    ghost use Rattle.bl_module.specs.Parts.{IsPart, SeenPart};

    ghost Value = { SeenPart };

    ghost view = { λ part. record { text = part.text; uses = part.uses; face = part.face; last = part.last } };

    ghost invariant = { λ part. IsPart (record { text = part.text; uses = part.uses; face = part.face; last = part.last }) };
}

impl Part {
    ghost use Rattle.std.specs.Prelude.{◌≡◌};
    ghost use Rattle.bl_module.specs.Parts.{IsPart, SeenPart, part_with};

    /// The part of a text that is good behind these faces, as the last file or as an earlier one.
    pub fn new(text: List<u8>, uses: List<Face>, face: Face, last: bool) -> Part
        requires { IsPart (part_with text uses face last) }
        ensures { result ≡ part_with text uses face last }
    {
        Part {
            text,
            uses,
            face,
            last,
        }
    }

    /// The bytes of the text.
    pub fn text(&self) -> &[u8]
        ensures { result.now ≡ self.now.text }
    {
        &self.text
    }

    /// The faces behind which the text was judged.
    pub fn uses(&self) -> &[Face]
        ensures { result.now ≡ self.now.uses }
    {
        &self.uses
    }

    /// The face of the text.
    pub fn face(&self) -> &Face
        ensures { result.now ≡ self.now.face }
    {
        &self.face
    }

    /// Whether the text was judged as the last file of a program, which has the entry point.
    pub fn last(&self) -> bool
        ensures { result ≡ self.now.last }
    {
        self.last
    }

    /// No rule fails for the text behind the faces, and they stand.
    pub fn is_part(&self)
        ensures { IsPart self.now }
    {
        let _ = &self.text;
    }
}
