//! What a C file keeps from tick to tick: only the numbers of the cells of its three objects. So a file that declares the structs of its
//! program keeps what the call of the entry needs: all frames, all that is remembered, and the outputs
//! (`specs/States/States.antt`, `StatesAreKept`).

ghost use Rattle.bl_emit_spec_laws_files.specs.States.States.{StatesAreKept};

use bl_ctext_semantics_laws_cells::cells::cells_are_kept;
use bl_ctree_laws_confluence::deeds::accepted_programs_are_orderly;
use bl_ctree_laws_typing::views::views_are_typed;
use bl_machine_pass_laws::numbers::trees_stay_placed;

/// What the call of the entry needs is kept.
pub fn states_are_kept()
    ensures { StatesAreKept }
{
    accepted_programs_are_orderly();
    trees_stay_placed();
    views_are_typed();
    cells_are_kept();
}
