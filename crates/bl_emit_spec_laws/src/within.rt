//! Counters stay within their greatest values. One lemma: where no counter of an instance exceeds its greatest value,
//! none does in the registers with which a pass begins. In a compiled program the changes after a turn, the deed of a
//! node, a whole pass, and the clearing at the start of a `run` keep that (`specs/Within.antt`).

ghost use Rattle.bl_emit_spec_laws.specs.Within.{AllStayWithin};

use bl_ctree_laws_confluence::deeds::accepted_programs_are_orderly;
use bl_machine_pass_laws::spots::spots_differ;

/// Passes leave counters within their greatest values.
pub fn passes_stay_within()
    ensures { AllStayWithin }
{
    accepted_programs_are_orderly();
    spots_differ();
}
