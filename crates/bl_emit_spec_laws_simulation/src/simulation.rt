//! The C functions of all activities of a program simulate passes of their instances. One lemma
//! (`specs/Simulation.antt`) combines those of points, of `run`s, of the beginnings of functions and of the order of
//! blocks. Its premises are that the program is compiled, that rules Frames and Cells hold, and that the table knows
//! the C functions (`CompiledSimulate`).

ghost use Rattle.bl_tree.specs.declared.program.Program.{Program};
ghost use Rattle.bl_emit_spec_laws_simulation.specs.Simulation.{CompiledSimulate};

use crate::compiled::rules_are_own;
use crate::establishes::runs_establish;
use crate::leaves::runs_leave;
use crate::runs::runs_simulate;
use bl_ctree_laws_typing::views::views_are_typed;
use bl_emit_functions_laws_simulation::units::functions_simulate;
use bl_emit_spec_laws::activities::activities_simulate;
use bl_emit_spec_laws::fits::turns_fit_compiled;
use bl_emit_spec_laws::passes::blocks_pass;
use bl_emit_spec_laws::placed::blocks_are_placed;
use bl_emit_spec_laws::remember::callees_remember;
use bl_emit_spec_laws::within::passes_stay_within;
use bl_emit_spec_laws_files::begins::{functions_begin, pointers_follow};
use bl_emit_spec_laws_files::counters::counters_suffice;
use bl_emit_spec_laws_nodes::copied::{nodes_copied, runs_copied};
use bl_emit_spec_laws_nodes::fitting::{nodes_apart, nodes_fit};
use bl_emit_spec_laws_nodes::points::points_simulate;
use bl_emit_spec_laws_nodes::prevs::prevs_agree;
use bl_emit_spec_laws_nodes::seen::{own_seen, targets_seen};
use bl_emit_spec_laws_nodes::views::{acts_leave, remembering_stands};

/// The C functions of a program's activities do what passes of their instances do.
pub fn compiled_simulate()
    ensures { (program : Program) → CompiledSimulate program.structs program.units program.entry }
{
    views_are_typed();
    functions_simulate();
    activities_simulate();
    functions_begin();
    pointers_follow();
    runs_simulate();
    rules_are_own();
    nodes_copied();
    runs_copied();
    counters_suffice();
    turns_fit_compiled();
    nodes_apart();
    nodes_fit();
    runs_establish();
    runs_leave();
    blocks_pass();
    passes_stay_within();
    blocks_are_placed();
    points_simulate();
    prevs_agree();
    callees_remember();
    own_seen();
    targets_seen();
    acts_leave();
    remembering_stands();
}
