//! The numbers in the names of C functions: 64 bits hold them. A value of each type has a scalar
//! (`specs/Numbered.antt`, `TypesHaveScalars`), so a unit has no more variables than cells. Each flag is of an `if` and
//! each turn of a loop, so the C of a body has no more of both together than statements (`UnitsCounted`). Where 64 bits
//! hold these counts of a unit (`CountsNumber`), or its cells (`CellsNumber`), they hold the numbers in the names of
//! its C function.

ghost use Rattle.bl_tree.specs.declared.program.Program.{Program};
ghost use Rattle.bl_emit_functions_laws_wellformed.specs.Numbered.{CellsNumber, CountsNumber, TypesHaveScalars, UnitsCounted};

/// A value of each type of a typed program has a scalar.
pub fn types_have_scalars()
    ensures { (program : Program) → TypesHaveScalars program.structs program.units program.entry }
{}

/// A unit has no more variables than they have scalars, and the C of its body no more flags and turns than it has statements.
pub fn units_counted()
    ensures { (program : Program) → UnitsCounted program.structs program.units program.entry }
{}

/// 64 bits hold the numbers in the names of a C function where they hold the scalars of its unit's variables and its statements.
pub fn counts_number()
    ensures { (program : Program) → CountsNumber program.structs program.units program.entry }
{
    units_counted();
}

/// 64 bits hold the numbers in the names of a C function where they hold the cells of its unit.
pub fn cells_number()
    ensures { (program : Program) → CellsNumber program.structs program.units program.entry }
{
    counts_number();
}
