//! The C of structs and functions has a spelling: the structs of a typed program's types (`specs/Spelled.antt`,
//! `StructsSpelled`), those of its units' variables (`MemoriesSpelled`), acts (`ActsFit`) and functions
//! (`FunctionsFit`). What they name may be named, and their literals and lengths are in range. Since nothing in a typed
//! program is nested deeper than 200, no more brackets are open than a C text may have.

ghost use Rattle.bl_tree.specs.declared.program.Program.{Program};
ghost use Rattle.bl_emit_functions_laws_wellformed.specs.Spelled.{ActsFit, FunctionsFit, MembersSpelled, MemoriesSpelled};
ghost use Rattle.bl_emit_functions_laws_wellformed.specs.Spelled.{StructsSpelled, TypesSpelled};

use bl_emit_acts_laws_wellformed::spelled::{expressions_fit, places_fit};

/// The C type of a type of a typed program has a spelling.
pub fn types_spelled()
    ensures { (program : Program) → TypesSpelled program.structs program.units program.entry }
{}

/// Each C struct that a typed program's types need has a spelling.
pub fn structs_spelled()
    ensures { (program : Program) → StructsSpelled program.structs program.units program.entry }
{}

/// Each member for a variable that a unit holds has a spelling.
pub fn members_spelled()
    ensures { (program : Program) → MembersSpelled program.structs program.units program.entry }
{}

/// The struct of the variables that a unit holds has a spelling.
pub fn memories_spelled()
    ensures { (program : Program) → MemoriesSpelled program.structs program.units program.entry }
{}

/// The C of an act has a spelling, which is no deeper than the act allows.
pub fn acts_fit()
    ensures { (program : Program) → ActsFit program.structs program.units program.entry }
{
    expressions_fit();
    places_fit();
}

/// The C function of a function has a spelling, which is no deeper than that of a C text may be.
pub fn functions_fit()
    ensures { (program : Program) → FunctionsFit program.structs program.units program.entry }
{
    expressions_fit();
    places_fit();
}
