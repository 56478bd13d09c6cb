//! Typed stores in the C of passes. One lemma: the deeds at the nodes of a compiled program keep stores typed
//! (`specs/Fits.antt`).

ghost use Rattle.bl_emit_spec_laws.specs.Fits.{AllTurnsFit};

use bl_machine_pass_laws_typing::fits::turns_fit;

/// Turns of compiled programs leave typed stores typed.
pub fn turns_fit_compiled()
    ensures { AllTurnsFit }
{
    turns_fit();
}
