//! What the C file of a program does over rows of inputs. Where the C function of the entry simulates passes by rules,
//! the file has the trace of each run of such passes over rows that fit. Its columns are the inputs and outputs of the
//! entry (`specs/Files.antt`, `FilesShow`). A file that ends with the interface's structs and the functions of the
//! start and of a tick has that form (`FilesStand`). Rows that fit the columns are rows of a run of passes
//! (`RowsSuffice`).

ghost use Rattle.bl_emit_spec_laws_files.specs.Files.{FilesShow, FilesStand, RowsSuffice};

use bl_ctree_laws_confluence::deeds::{accepted_programs_are_orderly, instances_have_callers};
use bl_emit_spec_laws::within::passes_stay_within;
use bl_machine_pass_laws_typing::fits::turns_fit;
use bl_machine_pass_laws_typing::starts::starts_fit;

/// Files show the traces of runs of passes by rules.
pub fn files_show()
    ensures { FilesShow }
{
    instances_have_callers();
    accepted_programs_are_orderly();
    turns_fit();
    starts_fit();
    passes_stay_within();
}

/// Files that end with the interface stand.
pub fn files_stand()
    ensures { FilesStand }
{}

/// Rows that fit the columns are rows of a run of passes.
pub fn rows_suffice()
    ensures { RowsSuffice }
{}
