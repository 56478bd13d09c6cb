//! What the C file of an accepted program declares and contains. Lemmas only (`specs/Kept.antt`). The file declares the
//! structs in which its program is kept from tick to tick (`FramesAreDeclared`). Each `run` calls the unit that its
//! node names (`RunsAreFound`), and the file ends with its interface (`FilesEnd`).

ghost use Rattle.bl_tree.specs.declared.program.Program.{Program};
ghost use Rattle.bl_emit_laws.specs.Kept.{FilesEnd, FramesAreDeclared, RunsAreFound};

use bl_ctree_laws_confluence::deeds::{accepted_programs_are_orderly, instances_have_callers};
use bl_emit_spec_laws::tables::{activities_built, written_is_kept};
use bl_emit_spec_laws_wellformed::closed::instances_needed;
use bl_emit_structs_laws_wellformed::names::types_apart;
use bl_machine_pass_laws::numbers::trees_stay_placed;
use bl_machine_transitions_laws::rules_are_listed;

/// The written file declares the structs in which its program is kept.
pub fn frames_are_declared()
    ensures { (program : Program) → FramesAreDeclared program }
{
    accepted_programs_are_orderly();
    activities_built();
    written_is_kept();
    types_apart();
    instances_needed();
}

/// Each `run` calls the unit that its node names.
pub fn runs_are_found()
    ensures { RunsAreFound }
{
    accepted_programs_are_orderly();
    instances_have_callers();
    trees_stay_placed();
    rules_are_listed();
}

/// The written file ends with its interface.
pub fn files_end()
    ensures { (program : Program) → FilesEnd program }
{
    written_is_kept();
}
