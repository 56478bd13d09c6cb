//! Branches of accepted programs are independent: of two steps of two branches of one `cobegin` neither changes what the other
//! looks at, so their order doesn't matter, traps included. Laws, as contracts of functions that do nothing.
//! What a deed touches is inside its instance (`specs/Independent/Inside.antt`). Deeds of two bodies that keep apart spare each other
//! (`specs/Independent/Sides.antt`). So the meaning of an accepted program allows at most one trace (`specs/Independent/Accepted.antt`).

ghost use Rattle.bl_ctree_laws_confluence.specs.Independent.Accepted.{AcceptedIsIndependent, AcceptedTracesAreOne, TwoAreIndependent};
ghost use Rattle.bl_ctree_laws_confluence.specs.Independent.Inside.{FramesAreInside};
ghost use Rattle.bl_ctree_laws_confluence.specs.Independent.Sides.{SidesSpare};

use bl_ctree_laws::bridge::statements_are_plain;
use bl_ctree_laws::runs::traces_are_one;

/// Where calls stand a frame that a deed changes as a whole, or whose result it looks at, is that of its instance or inside.
pub fn frames_are_inside()
    ensures { FramesAreInside }
{}

/// Of two bodies that keep apart a deed of the one changes nothing that a deed of the other looks at.
pub fn sides_spare()
    ensures { SidesSpare }
{}

/// In an accepted program the order of two steps of two branches doesn't matter.
pub fn two_branches_are_independent()
    ensures { TwoAreIndependent }
{}

/// In an accepted program branches are independent, in all trees that may be left of the entry's body.
pub fn accepted_programs_are_independent()
    ensures { AcceptedIsIndependent }
{
    statements_are_plain();
}

/// The meaning of an accepted program allows at most one trace over each list of rows.
pub fn accepted_programs_have_at_most_one_trace()
    ensures { AcceptedTracesAreOne }
{
    statements_are_plain();
    traces_are_one();
}
