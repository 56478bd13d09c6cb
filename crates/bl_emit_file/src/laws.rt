//! The laws of the C of a program's parts, put together.

ghost use Rattle.bl_tree.specs.declared.program.Program.{Program};
ghost use Rattle.bl_emit_file.specs.Laws.{ProgramsHaveSpelling, ProgramsShow};

use bl_ctree_laws_confluence::deeds::instances_have_callers;
use bl_emit_laws::accepted::programs_well_formed;
use bl_emit_laws::cells::{files_count, files_small};
use bl_emit_laws::counters::{files_have_ifs, files_own};
use bl_emit_laws::shows::written_shows;
use bl_emit_laws::spelled::programs_spelled;
use bl_emit_laws::width::frames_have_width;
use bl_emit_spec_laws::tables::activities_built;
use bl_emit_spec_laws_files::entry::entry_runs;
use bl_emit_spec_laws_files::files::rows_suffice;
use bl_emit_spec_laws_simulation::compiled::programs_compile;
use bl_emit_spec_laws_simulation::simulation::compiled_simulate;
use bl_limits_measures_laws::laws::units_use_earlier_ones;

/// What is written of a program for which no rule fails shows what the program means.
pub fn programs_show()
    ensures { (program : Program) → ProgramsShow program }
{
    activities_built();
    programs_compile();
    compiled_simulate();
    rows_suffice();
    entry_runs();
    written_shows();
    programs_well_formed();
    files_count();
    files_small();
    files_own();
    files_have_ifs();
    frames_have_width();
    units_use_earlier_ones();
    instances_have_callers();
}

/// What is written of a program for which no rule fails has a spelling.
pub fn programs_have_spelling()
    ensures { (program : Program) → ProgramsHaveSpelling program }
{
    programs_spelled();
}
