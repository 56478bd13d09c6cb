//! What may be left of a body. None of these functions does anything: the contract is the law.

ghost use Rattle.bl_ctree_laws.specs.ResidualLaws.{BlocksArePlainResidual, StepsKeepPlainResidual, WakingKeepsPlainResidual};

/// A body begins as what may be left of it, and steps and waking keep that.
pub fn bodies_stay_residual()
    ensures begins { BlocksArePlainResidual }
    ensures steps { StepsKeepPlainResidual }
    ensures waking { WakingKeepsPlainResidual }
{}
