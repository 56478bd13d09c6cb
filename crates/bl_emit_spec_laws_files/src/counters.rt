//! The counters of the activities of an accepted program suffice. One lemma: where no rule fails, each activity has a
//! counter, and owns all counters of which a rule asks what they held (`specs/Counters.antt`, `AllSuffice`).

ghost use Rattle.bl_emit_spec_laws_files.specs.Counters.{AllSuffice};

use bl_emit_spec_laws::own::copies_are_counters;
use bl_machine_laws::rests::activities_count;

/// The counters of each activity of an accepted program suffice.
pub fn counters_suffice()
    ensures { AllSuffice }
{
    activities_count();
    copies_are_counters();
}
