//! Steps of different branches commute. None of these functions does anything: the contract is the law.

ghost use Rattle.bl_ctree_laws.specs.Commutes.{StepsCommute};
ghost use Rattle.bl_ctree_laws.specs.Ends.{TicksAreConfluent};

/// Of two steps that may act in one tree each may act after the other, and both orders lead to one tree; or they are one step.
pub fn steps_commute()
    ensures { StepsCommute }
{}

/// Where the deeds of different branches are independent, all maximal lists of steps of a tick have one end, traps included.
pub fn ends_are_one()
    ensures { TicksAreConfluent }
{}
