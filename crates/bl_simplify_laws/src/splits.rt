//! Blocks that do the same, and what follows an `if` (`specs/Splits.antt`). Lemmas only.

ghost use Rattle.bl_simplify_laws.specs.Splits.{BlocksJoin, BranchesDecide, Splits};

/// Blocks and branches that do the same may stand for one another, and what follows an `if` may stand in both branches.
pub fn splits()
    ensures blocks { BlocksJoin }
    ensures branches { BranchesDecide }
    ensures splits { Splits }
{}
