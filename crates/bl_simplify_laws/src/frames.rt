//! What calls leave as it is, and what they depend on (`specs/Frames.antt`). Lemmas only.

ghost use Rattle.bl_simplify_laws.specs.Frames.{CallsLeave, FunctionsKeep};

/// A call leaves what it gets no pointer to, and each function does so and depends on nothing else.
pub fn calls_keep()
    ensures calls { CallsLeave }
    ensures functions { FunctionsKeep }
{}
