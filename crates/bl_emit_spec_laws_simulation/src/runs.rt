//! The blocks of `run`s. One lemma: the blocks of a `run`'s nodes simulate them (`RunsSimulate` of the crate
//! `bl_emit_spec_laws_nodes`), also where the start leaves its call to the block that goes on with it. The call must
//! establish what a pass of the callee begins with, and leave what that pass leaves.

ghost use Rattle.bl_tree.specs.declared.program.Program.{Program};
ghost use Rattle.bl_emit_spec_laws_nodes.specs.Calling.{RunsSimulate};

use bl_ctree_laws_confluence::deeds::{
    accepted_programs_are_orderly, instances_have_callers, instances_nest,
};
use bl_emit_acts_laws_simulation::{frames_apart, places_simulate, writes_encode};
use bl_emit_spec_laws::cleared::clearing_is_inside;
use bl_emit_spec_laws::registers::registers_apart;
use bl_emit_spec_laws::within::passes_stay_within;
use bl_emit_spec_laws_nodes::points::{changes_stand, returns_end};
use bl_machine_pass_laws::keys::nodes_have_keys;
use bl_machine_pass_laws::numbers::trees_stay_placed;
use bl_machine_pass_laws_typing::fits::turns_fit;

/// The blocks of `run`s do what a pass by rules does there.
pub fn runs_simulate()
    ensures { (program : Program) → RunsSimulate program.structs program.units program.entry }
{
    accepted_programs_are_orderly();
    instances_have_callers();
    instances_nest();
    frames_apart();
    places_simulate();
    writes_encode();
    registers_apart();
    clearing_is_inside();
    changes_stand();
    returns_end();
    turns_fit();
    passes_stay_within();
    nodes_have_keys();
    trees_stay_placed();
}
