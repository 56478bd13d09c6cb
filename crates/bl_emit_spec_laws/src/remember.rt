//! An activity that runs one which remembers something remembers that (`specs/Remember.antt`, `CallersRemember`).
//! Lemmas only.

ghost use Rattle.bl_emit_spec_laws.specs.Remember.{CallersRemember};

use bl_ctree_laws_confluence::deeds::{accepted_programs_are_orderly, instances_have_callers};
use bl_machine_pass_laws::numbers::trees_stay_placed;

/// Callers remember what those that they run do.
pub fn callees_remember()
    ensures { CallersRemember }
{
    accepted_programs_are_orderly();
    instances_have_callers();
    trees_stay_placed();
}
