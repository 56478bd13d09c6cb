//! What runs reach, on plain trees. None of these functions does anything: the contract is the law.

ghost use Rattle.bl_ctree_laws.specs.Fitted.{ReachedIsArmed};
ghost use Rattle.bl_ctree_laws.specs.Runs.{ListsArePlain, ReachedInsideIsPlainResidual, ReachedIsPlainResidual, StillIsPlain, TicksEndAlikeByPlain, TracesAreOne};

use bl_ctree::laws::trees_stay_left;

/// The trees that runs reach may be left of the entry's body.
pub fn reached_trees_are_residual()
    ensures trees { ReachedIsPlainResidual }
    ensures inside { ReachedInsideIsPlainResidual }
{
    trees_stay_left();
}

/// Lists of steps within a tick are lists of steps of the plain trees, and where they can't go on those can't.
pub fn lists_are_plain()
    ensures lists { ListsArePlain }
    ensures still { StillIsPlain }
{
    trees_stay_left();
}

/// Where the bodies of a program's units are typed, each `if` that is to begin in a tree that runs reach has an arm.
pub fn reached_trees_are_armed()
    ensures { ReachedIsArmed }
{}

/// Where the order of steps of different branches doesn't matter, ticks that begin alike have one end, over all their maximal lists of
/// steps.
pub fn ticks_have_one_end()
    ensures { TicksEndAlikeByPlain }
{
    trees_stay_left();
}

/// There a program's meaning allows at most one trace over each list of rows.
pub fn traces_are_one()
    ensures { TracesAreOne }
{
    trees_stay_left();
}
