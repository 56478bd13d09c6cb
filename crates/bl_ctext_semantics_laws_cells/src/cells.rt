//! Numbers of the objects' scalars.

ghost use Rattle.bl_ctext_semantics_laws_cells.specs.Cells.{AllCellsKept};

/// Numbers of the objects' scalars are kept.
pub fn cells_are_kept()
    ensures { AllCellsKept }
{}
