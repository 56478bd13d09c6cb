//! A control tree that a run reaches is told by its plain tree. One lemma (`specs/Plain.antt`, `PlainTreesTell`). The label
//! of each plain statement tells which statement of a body it is, and so what stands at each place of the tree.
#![tactic(auto)]

ghost use Rattle.bl_ctree_laws_plain.specs.Plain.{PlainTreesTell};

/// Trees that are left of one program, with one plain tree, are one.
pub fn plain_trees_tell()
    ensures { PlainTreesTell }
{}
