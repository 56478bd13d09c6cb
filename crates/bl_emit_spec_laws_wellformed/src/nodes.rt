//! The nodes of a typed program's activities. What is done at a node fits where it stands, and is nested no deeper than
//! a typed program allows (`specs/Nodes.antt`, `NodesStand`). So `spelled` requires only that the numbers of resting
//! places fit (`RulesFit`).

ghost use Rattle.bl_tree.specs.declared.program.Program.{Program};
ghost use Rattle.bl_emit_spec_laws_wellformed.specs.Nodes.{NodesStand, RulesFit};

/// What is done at the nodes of a typed program's units fits where it stands.
pub fn nodes_stand()
    ensures { (program : Program) → NodesStand program.structs program.units program.entry }
{}

/// The rules and nodes of an activity fit where the numbers of its resting places do.
pub fn rules_fit()
    ensures { (program : Program) → RulesFit program.structs program.units program.entry }
{
    nodes_stand();
}
