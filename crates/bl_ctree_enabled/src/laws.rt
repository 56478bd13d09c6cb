//! Laws of listings. These functions do nothing: the contract is the law.

ghost use Rattle.bl_ctree_enabled.specs.Laws.{BranchesAreListed, ListedIsRight, PointsAreListed, ReplacedIsListed};

use bl_ctree::laws::settled_trees_are_still;

/// A listing tells the points of its branches, and so of a tree that is a `cobegin`.
pub fn listings_tell_points()
    ensures right { ListedIsRight }
    ensures branches { BranchesAreListed }
    ensures points { PointsAreListed }
{
    settled_trees_are_still();
}

/// To replace a branch of a listing is to list the new branches.
pub fn replaced_branches_are_listed()
    ensures { ReplacedIsListed }
{}
