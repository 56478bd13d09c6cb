//! Blocks that do the same wherever they stand (`specs/Joins.antt`). Lemmas only.

ghost use Rattle.bl_simplify_laws.specs.Joins.{JoinAnd, JoinAndNot, JoinBlocks, JoinBranches, JoinChain, JoinEither, JoinEnds, JoinFunction, JoinLoop};
ghost use Rattle.bl_simplify_laws.specs.Joins.{JoinNot, JoinOr, JoinOrNot};

/// Blocks that do the same may stand for one another in blocks, branches, loops and functions.
pub fn same_blocks()
    ensures chain { JoinChain }
    ensures blocks { JoinBlocks }
    ensures branches { JoinBranches }
    ensures turns { JoinLoop }
    ensures function { JoinFunction }
{}

/// Conditions of nested `if`s may be joined.
pub fn joined_tests()
    ensures and { JoinAnd }
    ensures or { JoinOr }
    ensures not { JoinNot }
    ensures and_not { JoinAndNot }
    ensures or_not { JoinOrNot }
{}

/// What both branches end with may follow the `if`, and what both branches are may stand for it.
pub fn joined_branches()
    ensures ends { JoinEnds }
    ensures either { JoinEither }
{}
