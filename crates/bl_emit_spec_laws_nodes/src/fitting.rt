//! What is done at the nodes of an accepted program. Lemmas only: the act, `return` or condition at each node fits
//! (`specs/Fitting.antt`, `NodesFit`), and no output of a call overlaps another output or an aggregate input
//! (`CallsApart`).

ghost use Rattle.bl_tree.specs.declared.program.Program.{Program};
ghost use Rattle.bl_emit_spec_laws_nodes.specs.Fitting.{CallsApart, NodesFit};

/// What is done at nodes fits where it stands.
pub fn nodes_fit()
    ensures { (program : Program) → NodesFit program.structs program.units program.entry }
{}

/// No output of a call at a node overlaps another output or an aggregate input.
pub fn nodes_apart()
    ensures { (program : Program) → CallsApart program.structs program.units program.entry }
{}
