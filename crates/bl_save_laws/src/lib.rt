//! Laws of saved states (docs/FORMATS.md, "Saved states"). Lemmas only. A memory has at most one saved state, which is
//! short, and malformed bytes have one first wrong offset. A run may be stopped and continued from its saved state: the
//! trace over all rows is the first trace followed by the one from the state. A state saved after that is the state
//! after all rows (`specs/Laws.antt`).
#![tactic(auto)]

ghost use Rattle.bl_ctext_semantics.specs.Parts.{Parts};
ghost use Rattle.bl_save_laws.specs.Laws.{OnePlace, OneState, ShortStates, StateGoesOn, StatesJoin, TraceGoesOn};

use bl_save::laws::one_memory;

/// A memory has at most one saved state.
pub fn one_state()
    ensures { (file : Parts) → OneState file }
{}

/// Bytes show at no two places that they are no saved state.
pub fn one_place()
    ensures { (file : Parts) → OnePlace file }
{}

/// The saved states of a file are short.
pub fn states_are_short()
    ensures { (file : Parts) → ShortStates file }
{}

/// A run goes on from the cells that its first rows leave.
pub fn trace_goes_on()
    ensures { (file : Parts) → TraceGoesOn file }
{}

/// And from their saved state.
pub fn state_goes_on()
    ensures trace { (file : Parts) → StateGoesOn file }
    ensures state { (file : Parts) → StatesJoin file }
{
    one_memory();
}
