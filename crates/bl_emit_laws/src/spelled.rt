//! The C file of an accepted program has a spelling. One lemma: where no rule fails, the file of a program with a
//! machine of it can be spelled (`specs/Spelled.antt`, `ProgramsSpelled`).

ghost use Rattle.bl_tree.specs.declared.program.Program.{Program};
ghost use Rattle.bl_emit_laws.specs.Spelled.{ProgramsSpelled};

use bl_emit_spec_laws_wellformed::machines::machines_spell;
use bl_emit_spec_laws_wellformed::needed::{needed_numbered, needed_small};
use bl_emit_spec_laws_wellformed::texts::files_spelled;
use bl_machine_laws::rests::activities_count;

/// The C file that is written of an accepted program with a machine of it has a spelling.
pub fn programs_spelled()
    ensures { (program : Program) → ProgramsSpelled program }
{
    activities_count();
    machines_spell();
    needed_small();
    needed_numbered();
    files_spelled();
}
