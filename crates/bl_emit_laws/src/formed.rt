//! Laws of the C file that is written of a program with its machine. No clause of a well-formed file fails in it
//! (`specs/Formed.antt`, `FilesWellFormed`).

ghost use Rattle.bl_tree.specs.declared.program.Program.{Program};
ghost use Rattle.bl_emit_laws.specs.Formed.{FilesWellFormed};

use bl_emit_spec_laws_wellformed::closed::needed_closed;
use bl_emit_spec_laws_wellformed_bodies::lists::parts_well_formed;

/// Nothing fails in the C file of a program with its machine.
pub fn files_formed()
    ensures { (program : Program) → FilesWellFormed program }
{
    needed_closed();
    parts_well_formed();
}
