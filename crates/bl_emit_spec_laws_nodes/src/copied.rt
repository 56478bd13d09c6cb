//! What a program names under a `prev` is copied. Lemmas only: in each unit of a typed program, all that is named under
//! a `prev` at a node has a copy of its value at the start of the tick (`specs/Copied.antt`, `NodesCopied`). So has all
//! that the arguments of a `run` name (`RunsCopied`).

ghost use Rattle.bl_emit_spec_laws_nodes.specs.Copied.{NodesCopied, RunsCopied};

/// What is done at a node names under a `prev` only what is copied.
pub fn nodes_copied()
    ensures { NodesCopied }
{}

/// The inputs and the outputs of a `run` name under a `prev` only what is copied.
pub fn runs_copied()
    ensures { RunsCopied }
{}
