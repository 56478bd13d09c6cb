//! The resting places of a body differ (`specs/Spots.antt`, `SpotsDiffer`): those of different statements have labels
//! at different positions. Lemmas only.

ghost use Rattle.bl_machine_pass_laws.specs.Spots.{SpotsDiffer};

/// No two resting places of a body are one.
pub fn spots_differ()
    ensures { SpotsDiffer }
{}
