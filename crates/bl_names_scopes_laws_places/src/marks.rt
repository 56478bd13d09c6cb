//! The law of the marks of items.

ghost use Rattle.bl_names_scopes_laws_places.specs.Laws.{MarksMove};

/// Where places of items are mapped, so are those of what they do to names.
pub fn marks_move()
    ensures { MarksMove }
{}
