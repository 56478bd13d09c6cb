//! Laws of positions.

ghost use Rattle.std.specs.Prelude.{◌≡◌, ℕ, List};
ghost use Rattle.bl_lsp_text.specs.Positions.{CharacterBegins, offset_of, position_at};

/// The position of an offset at which a character begins, or the text ends, leads back to that offset.
pub fn positions_lead_back()
    ensures { (text : List ℕ) (offset : ℕ) → CharacterBegins text offset → offset_of text (position_at text offset) ≡ offset }
{}
