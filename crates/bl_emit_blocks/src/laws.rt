//! What turns depend on.

ghost use Rattle.bl_emit_blocks.specs.Laws.{BlocksAlike};

/// The turn of a rule by numbers asks nothing of the numbers that nodes have: does nothing; its contract is the law.
pub fn blocks_alike()
    ensures { BlocksAlike }
{}
