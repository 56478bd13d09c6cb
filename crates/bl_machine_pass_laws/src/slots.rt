//! Numbers of resting places by the labels of their statements. Lemmas only (`specs/Slots/Laws.antt`). The numbers that
//! a machine lists for the places of an activity, in source order, distinguish these places by labels too, where each
//! `cobegin` has a branch (`NumbersAreDistinct`). Each `cobegin` of a typed program has one (`TypedHaveBranches`).

ghost use Rattle.bl_machine_pass_laws.specs.Slots.Laws.{NumbersAreDistinct, TypedHaveBranches};

use crate::spots::spots_differ;

/// Numbers in source order are numbers by labels.
pub fn numbers_are_laid()
    ensures { NumbersAreDistinct }
{
    spots_differ();
}

/// Each `cobegin` of a typed program has a branch.
pub fn typed_have_branches()
    ensures { TypedHaveBranches }
{}
