//! How many nodes an activity has. The body of each unit of a typed program has at most four nodes for each statement
//! that is counted, and no more resting places than statements (`specs/Counts.antt`, `NodesCounted`).

ghost use Rattle.bl_tree.specs.declared.program.Program.{Program};
ghost use Rattle.bl_emit_spec_laws_wellformed.specs.Counts.{NodesCounted};

/// A unit's nodes are at most four times as many as its statements, and its resting places no more than these.
pub fn nodes_counted()
    ensures { (program : Program) → NodesCounted program.structs program.units program.entry }
{}
