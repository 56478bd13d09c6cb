//! The C file of an accepted program needs no more cells than rule Cells counts for the entry. Lemmas only
//! (`specs/Cells.antt`): this holds where rules Frames and Cells hold (`FilesCount`). So it needs at most a million
//! cells where no rule fails (`FilesSmall`).

ghost use Rattle.bl_tree.specs.declared.program.Program.{Program};
ghost use Rattle.bl_emit_laws.specs.Cells.{FilesCount, FilesSmall};

use bl_emit_functions_laws_wellformed::cells::{cells_follow, cells_grow, sizes_stand};
use bl_emit_spec_laws_wellformed::chains::activities_call_few;
use bl_emit_spec_laws_wellformed::closed::needed_closed;
use bl_emit_spec_laws_wellformed::machines::machines_spell;
use bl_emit_spec_laws_wellformed::needed::needed_small;
use bl_emit_spec_laws_wellformed_bodies::cells::{activity_cells, bodies_run};
use bl_emit_spec_laws_wellformed_bodies::structs::parts_stand;
use bl_limits_measures::laws::units_add_up;
use bl_limits_measures_laws::laws::units_use_earlier_ones;
use bl_machine_pass_laws::numbers::trees_stay_placed;

/// The C file needs no more cells than the entry has.
pub fn files_count()
    ensures { (program : Program) → FilesCount program }
{
    units_use_earlier_ones();
    units_add_up();
    trees_stay_placed();
    sizes_stand();
    cells_follow();
    cells_grow();
    activities_call_few();
    bodies_run();
    activity_cells();
    needed_small();
    needed_closed();
    machines_spell();
    parts_stand();
}

/// The C file of an accepted program needs at most a million cells.
pub fn files_small()
    ensures { (program : Program) → FilesSmall program }
{
    needed_small();
    needed_closed();
    files_count();
}
