//! The law of named items.

ghost use Rattle.bl_names_laws_places.specs.Laws.{NamesAgree};

/// Behind starts whose scopes correspond items get the same named trees, up to places and the positions of constants.
pub fn names_agree()
    ensures { NamesAgree }
{}
