//! The blocks of an activity's C function simulate a pass by rules, in the order of their nodes' numbers, traps
//! included (`specs/Passes.antt`, `BlocksPass`). Premises: the `if` of each node simulates the node, and an `if` by a
//! rule's guard is taken iff the rule is due. A start that leaves its call to the next block simulates a `run` together
//! with that block. No counter exceeds its greatest value. The turns stand in this order, and a node behind another one
//! in its block waits by a flag that only that one sets.

ghost use Rattle.bl_emit_spec_laws.specs.Passes.{BlocksPass};

/// Blocks whose turns do what is done at their nodes make a pass.
pub fn blocks_pass()
    ensures { BlocksPass }
{}
