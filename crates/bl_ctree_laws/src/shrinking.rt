//! What can still happen shrinks with each step. None of these functions does anything: the contract is the law.

ghost use Rattle.bl_ctree_laws.specs.Shrinks.{EndsShrink, MayIsCould, MeetsShrink, MovingIsUnsettled, WritesShrink};

/// What may act could act, and where something could act the tree isn't settled.
pub fn acting_is_open()
    ensures could { MayIsCould }
    ensures unsettled { MovingIsUnsettled }
{}

/// A step never lets its tree end or write more. So what a step reads and its branches don't meet, they don't meet later.
pub fn steps_shrink()
    ensures ends { EndsShrink }
    ensures writes { WritesShrink }
    ensures meets { MeetsShrink }
{}
