//! Blocks with first turns of loops unrolled. None of these functions does anything: the contract is the law.

ghost use Rattle.bl_ctree_laws_peeled.specs.Answers.{BlocksUnrollToThemselves, UnrolledAnswers, UnrollingJoins};

/// A block is itself with no first turn unrolled, and first turns are unrolled in each of two blocks that are joined.
pub fn blocks_unroll()
    ensures none { BlocksUnrollToThemselves }
    ensures joined { UnrollingJoins }
{}

/// A block with first turns unrolled may end at once, and may write before the next pause, as the block itself.
pub fn unrolled_blocks_answer()
    ensures { UnrolledAnswers }
{}
