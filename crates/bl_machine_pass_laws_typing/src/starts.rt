//! Typed stores as runs and ticks begin. One lemma: the first store of a run of a typed program is typed, and a typed
//! store stays so as a tick begins with a row that fits (`specs/Starts.antt`).

ghost use Rattle.bl_machine_pass_laws_typing.specs.Starts.{AllStartsFit};

use bl_ctree_laws_confluence::deeds::instances_have_callers;

/// Runs and ticks begin with typed stores.
pub fn starts_fit()
    ensures { AllStartsFit }
{
    instances_have_callers();
}
