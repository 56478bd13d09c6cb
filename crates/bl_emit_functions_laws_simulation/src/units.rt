//! The C functions of all functions of a typed program simulate them. The table knows the C function of each function
//! up to a position, under its name and over the functions before it (`specs/Units.antt`, `KnownUpTo`). Then each
//! returns or leaves what the function does, or traps where it does (`FunctionsSimulate`). Premises are that rule Alias
//! holds, and that no function has more than 2 ^ 64 variables or flags (`AllNamesSuffice`). Each of these takes a byte
//! of the source at least. A table keeps what it knows as others join it (`TablesGrow`). The C functions of a program's
//! functions, in order, make a table that knows all of them (`TablesKnow`).

ghost use Rattle.bl_tree.specs.declared.program.Program.{Program};
ghost use Rattle.bl_emit_functions_laws_simulation.specs.Units.{FunctionsSimulate, TablesGrow, TablesKnow};

use crate::calls::procedures_simulate;
use crate::results::results_simulate;

/// The C functions that a table knows do what the functions of the program do.
pub fn functions_simulate()
    ensures { (program : Program) → FunctionsSimulate program.structs program.units program.entry }
{
    results_simulate();
    procedures_simulate();
}

/// A table knows what it knew and what joins it.
pub fn tables_grow()
    ensures { (program : Program) → TablesGrow program.structs program.units }
{}

/// The table of the C functions of a program's functions, one behind the other, knows all of them.
pub fn tables_know()
    ensures { (program : Program) → TablesKnow program.structs program.units program.entry }
{}
