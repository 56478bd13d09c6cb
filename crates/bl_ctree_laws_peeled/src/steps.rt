//! Steps of related trees. None of these functions does anything: the contract is the law.

ghost use Rattle.bl_ctree_laws_peeled.specs.Steps.{IdleIsRelated, StepsAreRelated, StillIsRelated, WakingIsRelated};

/// A step of a tree is one of each related tree, or a head that falls away.
pub fn steps_are_related()
    ensures { StepsAreRelated }
{}

/// Where no step of a tree may act, none of a related tree may.
pub fn still_trees_are_related()
    ensures { StillIsRelated }
{}

/// Whole trees begin related, and related trees are woken to related ones.
pub fn waking_is_related()
    ensures begins { IdleIsRelated }
    ensures wakes { WakingIsRelated }
{}
