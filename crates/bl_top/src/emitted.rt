//! The C file that is written for a program.

ghost use Rattle.std.specs.Prelude.{IfOk};
ghost use Rattle.bl_rules_laws_sizes.specs.Small.{IsOfSmallTree};
ghost use Rattle.bl_top.specs.inner.Programs.{IsFileOfProgram};

use bl_ctext::CFile;
use bl_rules::AcceptedSource;
use bl_rules_laws::declared::accepted_trees_declare;
use bl_rules_laws::traces::{accepted_trees_have_one_trace, peeled_programs_mean_the_same};
use bl_rules_laws_sizes::peeled_units_stay_small;
use bl_tree::NoMemory;
use std::alloc::Global;

/// The C file of the accepted program of a small tree: the simplified one. It is made of the peeled program, which means the same.
pub fn c_file(alloc: Global, accepted: &AcceptedSource) -> Result<CFile, NoMemory>
    requires { IsOfSmallTree accepted.now.program }
    ensures { IfOk result (IsFileOfProgram accepted.now.program.structs accepted.now.program.units accepted.now.program.entry) }
{
    accepted_trees_have_one_trace();
    peeled_programs_mean_the_same();
    accepted_trees_declare();
    peeled_units_stay_small();
    accepted.is_accepted();
    bl_emit_simplified::c_file(alloc, accepted.peeled())
}
