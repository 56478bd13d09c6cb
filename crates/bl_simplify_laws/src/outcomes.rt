//! What outcomes that are alike have in common (`specs/Observed.antt`). Lemmas only.

ghost use Rattle.bl_simplify_laws.specs.Observed.{AlikeIs, AlikeSays};

/// Outcomes are alike iff they end alike, with the same memory unless they trap.
pub fn alike_says()
    ensures says { AlikeSays }
    ensures is_said { AlikeIs }
{}
