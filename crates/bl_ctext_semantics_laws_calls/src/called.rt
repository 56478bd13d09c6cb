//! A law of what fails in C. What fails in a block depends on the functions that are called in it alone
//! (`specs/Called.antt`, `FaultsFollow`).

ghost use Rattle.bl_ctext_semantics_laws_calls.specs.Called.{FaultsFollow};

/// What fails in a block depends on the functions that are called in it.
pub fn faults_follow()
    ensures { FaultsFollow }
{}
