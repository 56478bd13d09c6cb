//! The cells that C structs and functions need: rule Cells counts no fewer. A C struct of a type has no more scalars
//! than a value of the type. That of a function's variables has no more than they have together (`specs/Cells.antt`,
//! `SizesStand`). So the deepest chain of calls of a C function has no more cells than rule Cells counts for it
//! (`CellsFollow`). The chains of earlier units are known, and still are once it joins them (`CellsGrow`).

ghost use Rattle.bl_tree.specs.declared.program.Program.{Program};
ghost use Rattle.bl_emit_functions_laws_wellformed.specs.Cells.{CellsFollow, CellsGrow, SizesStand};

use crate::numbered::{types_have_scalars, units_counted};
use bl_emit_structs_laws_wellformed::names::types_apart;

/// A table of the scalars of C structs tells no more than the types and variables have, whichever struct joins it.
pub fn sizes_stand()
    ensures { (program : Program) → SizesStand program.structs program.units program.entry }
{
    types_apart();
}

/// The deepest chain that the C function of a function heads has no more cells than the function.
pub fn cells_follow()
    ensures { (program : Program) → CellsFollow program.structs program.units program.entry }
{
    types_have_scalars();
    units_counted();
}

/// A table of the cells of chains still tells no more once a C function joins it that has no more cells than its unit.
pub fn cells_grow()
    ensures { (program : Program) → CellsGrow program.structs program.units program.entry }
{}
