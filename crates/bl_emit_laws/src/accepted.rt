//! The C file of an accepted program is well formed. One lemma: where no rule fails, no clause fails in the file of a
//! program with a machine of it (`specs/Accepted.antt`, `ProgramsWellFormed`).

ghost use Rattle.bl_tree.specs.declared.program.Program.{Program};
ghost use Rattle.bl_emit_laws.specs.Accepted.{ProgramsWellFormed};

use crate::formed::files_formed;
use crate::forms::all_form;
use bl_emit_spec_laws_wellformed_bodies::structs::files_declare;

/// No clause fails in the C file that is written of an accepted program with a machine of it.
pub fn programs_well_formed()
    ensures { (program : Program) → ProgramsWellFormed program }
{
    all_form();
    files_declare();
    files_formed();
}
