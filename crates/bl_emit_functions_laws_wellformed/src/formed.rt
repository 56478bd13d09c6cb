//! The C functions of functions are well formed. Before the function stand the structs of the program's types and of
//! its variables, and earlier functions (`specs/Formed.antt`, `StandsBefore`). No clause fails in the statements of the
//! C function (`BodiesWellFormed`). None fails in the whole function (`FunctionsWellFormed`), if no earlier function
//! has its name and it heads no chain of more than 300 calls. Each loop is counted by a variable of its own
//! (`TurnsDiffer`), and calls expect its parameters and result (`FunctionsSigned`). The struct of its variables is one
//! in which no clause fails behind the program's structs (`MemoriesHold`, and `StructsWellFormed` of
//! `bl_emit_structs_laws_wellformed`).

ghost use Rattle.bl_tree.specs.declared.program.Program.{Program};
ghost use Rattle.bl_emit_functions_laws_wellformed.specs.Formed.{BodiesWellFormed, FunctionsSigned, FunctionsWellFormed, MemoriesHold, TurnsDiffer};

/// Nothing fails in the statements of the C function of a function of a typed program.
pub fn bodies_well_formed()
    ensures { (program : Program) → BodiesWellFormed program.structs program.units program.entry }
{}

/// Nothing fails in the C function of a function of a typed program.
pub fn functions_well_formed()
    ensures { (program : Program) → FunctionsWellFormed program.structs program.units program.entry }
{}

/// Each loop of the C function of a function is counted by a variable of its own.
pub fn turns_differ()
    ensures { (program : Program) → TurnsDiffer program.structs program.units }
{}

/// The C function of a function has the parameters and the result that are asked of it where it is called.
pub fn functions_signed()
    ensures { FunctionsSigned }
{}

/// The struct of a function's variables has variables of the program as its members, each once.
pub fn memories_hold()
    ensures { (program : Program) → MemoriesHold program.structs program.units }
{}
