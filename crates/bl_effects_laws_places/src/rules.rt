//! The laws of the rules Pause, Conflict, Alias and Instant.

ghost use Rattle.bl_effects_laws_places.specs.Laws.{FailuresMove, PassingStays};

/// Where places are mapped, each rule fails at the images of the places at which it failed.
pub fn failures_move()
    ensures failures { FailuresMove }
    ensures passing { PassingStays }
{}
