//! Whole C files of activities have a spelling. The C file of a typed program has one (`specs/Texts.antt`,
//! `FilesSpelled`). Premises are that 64 bits hold the numbers in the names of needed functions, and that the C of each
//! needed activity can be spelled (`AllWrite`).

ghost use Rattle.bl_tree.specs.declared.program.Program.{Program};
ghost use Rattle.bl_emit_spec_laws_wellformed.specs.Texts.{FilesSpelled};

use crate::spelled::{activities_fit, frames_spelled, remembered_spelled};
use bl_emit_functions_laws_wellformed::spelled::{
    functions_fit, memories_spelled, structs_spelled, types_spelled,
};

/// The C file that is written of a typed program has a spelling.
pub fn files_spelled()
    ensures { (program : Program) → FilesSpelled program }
{
    functions_fit();
    memories_spelled();
    structs_spelled();
    types_spelled();
    activities_fit();
    frames_spelled();
    remembered_spelled();
}
