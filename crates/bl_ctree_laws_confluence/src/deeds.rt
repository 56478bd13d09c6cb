//! Which deeds are done in either order. Laws, as contracts of functions that do nothing: of two deeds of which neither changes
//! what the other looks at, each does after the other what it did before it, traps included, and both orders leave one store
//! (`specs/Deeds/Deeds.antt`). Each unit that has an instance in an accepted program keeps its branches apart (`specs/Deeds/Orderly.antt`).
//! Each instance but the first has a caller, to which the homes of its outputs lead (`specs/Deeds/Origins.antt`),
//! and what is inside a call has its homes there, but for those of the call's outputs (`specs/Deeds/Nesting.antt`).
//! Homes of one instance overlap only where its paths do (`specs/Deeds/Homes.antt`).

ghost use Rattle.bl_ctree_laws_confluence.specs.Deeds.Deeds.{DeedsAreIndependent};
ghost use Rattle.bl_ctree_laws_confluence.specs.Deeds.Homes.{HomesAreApart};
ghost use Rattle.bl_ctree_laws_confluence.specs.Deeds.Nesting.{ProgramsNest};
ghost use Rattle.bl_ctree_laws_confluence.specs.Deeds.Orderly.{AcceptedIsOrderly};
ghost use Rattle.bl_ctree_laws_confluence.specs.Deeds.Origins.{HomesLeadOut, InstancesHaveCallers};

/// Where neither of two deeds changes what the other looks at their order doesn't matter.
pub fn deeds_are_independent()
    ensures { DeedsAreIndependent }
{}

/// In a program that is accepted each unit that has an instance is a typed activity that pauses and keeps its branches apart.
pub fn accepted_programs_are_orderly()
    ensures { AcceptedIsOrderly }
{}

/// Each instance but the first has a caller with a lesser number, and homes lead out to callers.
pub fn instances_have_callers()
    ensures callers { InstancesHaveCallers }
    ensures homes { HomesLeadOut }
{}

/// Nothing is inside two calls of one instance, and what is inside a call has homes there alone, or those of its outputs.
pub fn instances_nest()
    ensures { ProgramsNest }
{}

/// Where no two outputs of a call overlap, homes of an instance overlap only where its paths do.
pub fn homes_are_apart()
    ensures { HomesAreApart }
{}
