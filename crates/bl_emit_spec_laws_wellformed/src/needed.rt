//! The sizes of the units that the entry of a program needs. Such a unit has no more cells than the entry
//! (`specs/Needed.antt`, `NeededCells`), so at most a million where rule Cells holds (`NeededSmall`). Then 64 bits hold
//! the numbers in the names of its C function (`NeededNumbered`).

ghost use Rattle.bl_tree.specs.declared.program.Program.{Program};
ghost use Rattle.bl_emit_spec_laws_wellformed.specs.Needed.{NeededCells, NeededNumbered, NeededSmall};

use bl_emit_functions_laws_wellformed::numbered::cells_number;
use bl_limits_measures::laws::units_add_up;
use bl_limits_measures_laws::laws::units_use_earlier_ones;

/// A unit that the entry needs has no more cells than the entry.
pub fn needed_cells()
    ensures { (program : Program) → NeededCells program.structs program.units program.entry }
{
    units_use_earlier_ones();
    units_add_up();
}

/// A unit that the entry needs has at most a million cells, where rule Cells doesn't fail.
pub fn needed_small()
    ensures { (program : Program) → NeededSmall program.structs program.units program.entry }
{
    needed_cells();
}

/// 64 bits hold the numbers in the names of the C function of a unit that the entry needs, where rule Cells doesn't fail.
pub fn needed_numbered()
    ensures { (program : Program) → NeededNumbered program.structs program.units program.entry }
{
    needed_small();
    cells_number();
}
