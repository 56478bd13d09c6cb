//! The traces of the C file of a compiled program. One lemma (`specs/Shows.antt`, `WrittenShows`): the well-formed file
//! has the trace of each run of passes by rules over rows of inputs. The functions of all activities must simulate such
//! passes.

ghost use Rattle.bl_tree.specs.declared.program.Program.{Program};
ghost use Rattle.bl_emit_laws.specs.Shows.{WrittenShows};

use crate::kept::{files_end, frames_are_declared, runs_are_found};
use crate::linked::needed_simulate;
use bl_emit_spec_laws_files::files::{files_show, files_stand};
use bl_emit_spec_laws_files::states::states_are_kept;
use bl_emit_spec_laws_wellformed::closed::needed_closed;

/// The written file shows the traces of runs of passes by rules.
pub fn written_shows()
    ensures { (program : Program) → WrittenShows program }
{
    frames_are_declared();
    runs_are_found();
    files_end();
    needed_closed();
    needed_simulate();
    states_are_kept();
    files_stand();
    files_show();
}
