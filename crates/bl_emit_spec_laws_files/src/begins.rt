//! How the C function of an activity begins. The pointers of the called function lead to the places that the call
//! gives, which are apart as a pass needs (`specs/Begins.antt`, `PointersAreGiven`, `FunctionsBeginInContext`). Each
//! variable has its value in the memory in which the function begins (`VariablesBegin`). The C before the blocks makes
//! copies of counters, the flag of the entry and copies of variables; after it memory represents the start of a pass by
//! rules (`FunctionsBeginWhere`).

ghost use Rattle.bl_tree.specs.declared.program.Program.{Program};
ghost use Rattle.bl_emit_spec_laws_files.specs.Begins.{FunctionsBeginInContext, FunctionsBeginWhere, PointersFollow, VariablesBegin};

use bl_ctree_laws_confluence::deeds::accepted_programs_are_orderly;
use bl_emit_acts_laws_simulation::{copies_begin, frames_apart};
use bl_emit_functions_laws_simulation::calls::{calls_keep, hands_over};
use bl_emit_spec_laws::own::entries_are_own;
use bl_emit_spec_laws::registers::{guards_show, registers_apart};

/// The pointers of the called C function of an activity lead to the places that the call gives.
pub fn pointers_follow()
    ensures { (program : Program) → PointersFollow program.structs program.units program.entry }
{
    accepted_programs_are_orderly();
    hands_over();
}

/// The called C function of an activity stands as it begins.
pub fn functions_stand()
    ensures { (program : Program) → FunctionsBeginInContext program.structs program.units program.entry }
{
    accepted_programs_are_orderly();
    hands_over();
}

/// In the memory in which the called C function of an activity begins each variable has its value at its place.
pub fn variables_begin()
    ensures { (program : Program) → VariablesBegin program.structs program.units program.entry }
{
    accepted_programs_are_orderly();
    hands_over();
    calls_keep();
}

/// The called C function of an activity begins as a pass begins: what stands before its blocks goes on, and leaves memory that holds the registers,
/// the variables and their copies, and what it keeps of all that it calls.
pub fn functions_begin()
    ensures { (program : Program) → FunctionsBeginWhere program.structs program.units program.entry }
{
    accepted_programs_are_orderly();
    hands_over();
    calls_keep();
    registers_apart();
    guards_show();
    frames_apart();
    copies_begin();
    entries_are_own();
}
