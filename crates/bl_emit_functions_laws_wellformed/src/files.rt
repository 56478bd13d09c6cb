//! The C functions of a program's functions, in order. The C function of a unit calls only functions of the prelude and
//! of the unit's callees. So it heads no longer chain of calls than the unit does (`specs/Files/Laws.antt`,
//! `ChainsFollow`), and none of more than 100 where rule Frames holds (`ChainsShort`). A table of the chains of earlier
//! functions (`ChainsKnown`) stays right once the next function joins it (`ChainsGrow`).
//!
//! So no clause fails in the C functions of a program's functions, which have different names, behind the structs of
//! its types and of its functions' variables (`specs/Files/List.antt`, `FunctionListsWellFormed`). What fails in a list
//! that begins with them fails behind them. The structs of variables have different names (`MemoriesStand`). Nothing
//! fails in all these structs, and they have what the functions need (`StructsPrecede`). For a file that begins with
//! these structs and functions, rules Frames and Cells must hold, and 64 bits the numbers in the functions' names
//! (`FunctionFilesWellFormed`).

ghost use Rattle.bl_tree.specs.declared.program.Program.{Program};
ghost use Rattle.bl_emit_functions_laws_wellformed.specs.Files.Laws.{ChainsFollow, ChainsGrow, ChainsShort};
ghost use Rattle.bl_emit_functions_laws_wellformed.specs.Files.List.{FunctionFilesWellFormed, FunctionListsWellFormed, MemoriesStand, StructsPrecede};

use crate::formed::{functions_signed, functions_well_formed, memories_hold};
use bl_emit_structs_laws_wellformed::formed::{structs_there, structs_well_formed};

/// The C function of a unit heads no longer chain of calls than the unit does.
pub fn chains_follow()
    ensures { (program : Program) → ChainsFollow program.structs program.units }
{}

/// A table that tells the chains of the earlier functions still does so once the next function joins it.
pub fn chains_grow()
    ensures { (program : Program) → ChainsGrow program.structs program.units program.entry }
{}

/// Where rule Frames doesn't fail, no C function of a unit heads a chain of more than 100 functions.
pub fn chains_short()
    ensures { (program : Program) → ChainsShort program.structs program.units program.entry }
{}

/// Nothing fails in the C functions of a program's functions, one behind the other.
pub fn function_lists_well_formed()
    ensures { (program : Program) → FunctionListsWellFormed program.structs program.units program.entry }
{
    functions_well_formed();
    functions_signed();
}

/// No two of the structs of the variables of a program's functions have one name.
pub fn memories_stand()
    ensures { (program : Program) → MemoriesStand program.structs program.units program.entry }
{
    memories_hold();
}

/// Nothing fails in the structs before a program's functions, and they are what the functions need.
pub fn structs_precede()
    ensures { (program : Program) → StructsPrecede program.structs program.units program.entry }
{
    structs_well_formed();
    structs_there();
    memories_hold();
}

/// Nothing fails in the C functions of a program's functions, in a file that begins with their structs.
pub fn files_formed()
    ensures { (program : Program) → FunctionFilesWellFormed program.structs program.units program.entry }
{
    structs_precede();
    function_lists_well_formed();
}
