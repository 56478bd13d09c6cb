//! The C structs of a program are well formed. No clause fails in them, nor in structs behind them with its variables
//! as members (`specs/Formed.antt`, `StructsWellFormed`). A premise is that no struct and no variable is nested deeper
//! than 299 (rule Cells allows 100). A file that begins with the program's C structs declares each struct that its
//! types need, with its members (`StructsThere`).

ghost use Rattle.bl_tree.specs.declared.program.Program.{Program};
ghost use Rattle.bl_emit_structs_laws_wellformed.specs.Formed.{StructsThere, StructsWellFormed};

use crate::names::{members_differ, types_apart, types_declared, uses_earlier};

/// No clause fails in the C structs of a program, nor in those of its variables behind them.
pub fn structs_well_formed()
    ensures { (program : Program) → StructsWellFormed program.structs program.units program.entry }
{
    members_differ();
    uses_earlier();
    types_declared();
    types_apart();
}

/// Each C struct that a program's types need is declared in a file that begins with the program's.
pub fn structs_there()
    ensures { (program : Program) → StructsThere program.structs program.units program.entry }
{
    types_apart();
}
