//! Laws of control trees. None of these functions does anything: the contract is the law.

ghost use Rattle.bl_ctree.specs.Laws.{BlocksFit, FrontsAreSteps, ItemsBeginResidual, MaximalIsSteps, MovesAreListed, PointsAct, StepsKeepResidual};
ghost use Rattle.bl_ctree.specs.Laws.{PointsInOrder, PointsMove, ReachedInsideIsResidual, ReachedIsResidual, SeqIsResidual, SettledIsStill, StepsAreListed};
ghost use Rattle.bl_ctree.specs.Laws.{StepsFollow, StillIsUnlisted, WakingForgets, WakingKeepsResidual, WokenTreeIsResidual};

/// The listed points of a tree are its steps: each may act, and no other.
pub fn points_are_steps()
    ensures sound { PointsMove }
    ensures complete { MovesAreListed }
    ensures steps { StepsAreListed }
    ensures still { StillIsUnlisted }
{}

/// Points are listed in the order of the branches that lead to them, each once.
pub fn points_are_in_order()
    ensures { PointsInOrder }
{}

/// Nothing can act in a settled tree.
pub fn settled_trees_are_still()
    ensures { SettledIsStill }
{}

/// Lists of steps can be cut and joined, a maximal one is one, and one after which a point may act can go on.
pub fn lists_of_steps()
    ensures acting { PointsAct }
    ensures fronts { FrontsAreSteps }
    ensures follow { StepsFollow }
    ensures maximal { MaximalIsSteps }
{}

/// What begins is left of its items, and steps and waking keep what is left of them; so runs reach only what is left of the
/// entry's body.
pub fn trees_stay_left()
    ensures blocks { BlocksFit }
    ensures items { ItemsBeginResidual }
    ensures seq { SeqIsResidual }
    ensures steps { StepsKeepResidual }
    ensures waking { WakingKeepsResidual }
    ensures whole { WokenTreeIsResidual }
    ensures reached { ReachedIsResidual }
    ensures inside { ReachedInsideIsResidual }
{}

/// What stood in the tree when the last tick began doesn't tell in the next one.
pub fn waking_forgets()
    ensures { WakingForgets }
{}
