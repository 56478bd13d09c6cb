//! The laws of the rules Twice and Cycle.

ghost use Rattle.bl_cause_trees_laws_places.specs.Laws.{FailuresMove, PassingStays};

/// Where places are mapped, and can be brought back, each rule fails at the images of the places at which it failed.
pub fn failures_move()
    ensures failures { FailuresMove }
    ensures passing { PassingStays }
{}
