//! Merged machines have the traces that they had before. Lemmas only. A pass takes the blocks of a machine one after
//! another. So it takes nodes in the same order once blocks are merged, and runs have the same traces
//! (`specs/Laws.antt`, `MergedShowTheSame`).
#![tactic(auto)]

ghost use Rattle.bl_block_laws.specs.Laws.{MergedShowTheSame};

/// A machine whose blocks were joined shows the traces that it showed before.
pub fn merged_machines_show_the_same()
    ensures { MergedShowTheSame }
{}
