//! Laws of bodies with first turns, each the contract of a function that does nothing.

ghost use Rattle.bl_peel.specs.Laws.{DeepHasEffects, FrontHasEffects, PeeledHasEffects, PeelingTellsInstant};

/// A body with first turns may end at once where its source may, has its width, and reads and writes what it does, also
/// before it pauses.
pub fn peeled_bodies_have_the_effects()
    ensures { PeeledHasEffects }
{}

/// So do the parts: each statement outside of first turns, and what it becomes where it begins a branch.
pub fn peeled_statements_have_the_effects()
    ensures deep { DeepHasEffects }
    ensures front { FrontHasEffects }
    ensures instant { PeelingTellsInstant }
{}
