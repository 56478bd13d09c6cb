//! Places of a source text.

ghost use Rattle.std.specs.Prelude.{◌≡◌};
ghost use Rattle.bl_tree.specs.Rules.{is_before};

/// A part of a source text: the offset of its first byte and that of the byte after its last.
#[derive(Clone, Copy, PartialEq, Eq, Debug)]
pub struct Place {
    pub start: u32,
    pub end: u32,
}

impl Place {
    /// By the starts, and then by the ends.
    pub fn is_before(self, other: Place) -> bool
        ensures { result ≡ is_before self other }
    {
        self.start < other.start || (self.start == other.start && self.end < other.end)
    }
}
