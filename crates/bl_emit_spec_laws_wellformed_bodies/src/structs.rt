//! The structs of the C file of an accepted program. Lemmas only. The structs of needed units use only those before
//! them, and have different names (`specs/Structs/Laws.antt`, `PartsAreSound`). No clause fails in the structs of the
//! whole file, and each is declared (`FilesDeclare`).

ghost use Rattle.bl_tree.specs.declared.program.Program.{Program};
ghost use Rattle.bl_emit_spec_laws_wellformed_bodies.specs.Structs.Laws.{FilesDeclare, PartsAreSound};

use bl_emit_functions_laws_wellformed::formed::memories_hold;
use bl_emit_spec_laws_wellformed::closed::needed_closed;
use bl_emit_spec_laws_wellformed::machines::{machines_differ, machines_spell};
use bl_emit_spec_laws_wellformed::names::{frame_differs, memory_differs};
use bl_emit_spec_laws_wellformed::needed::{needed_numbered, needed_small};
use bl_emit_structs_laws_wellformed::formed::structs_there;
use bl_emit_structs_laws_wellformed::names::{
    members_differ, names_differ, types_apart, types_declared, uses_earlier,
};
use bl_machine_pass_laws::numbers::trees_stay_placed;

/// The structs of the units that the entry needs stand in an order in which each uses earlier ones alone.
pub fn parts_stand()
    ensures { (program : Program) → PartsAreSound program.structs program.units program.entry }
{
    trees_stay_placed();
    types_declared();
    memories_hold();
    frame_differs();
    memory_differs();
    machines_spell();
    machines_differ();
    needed_small();
    needed_numbered();
    needed_closed();
}

/// No clause fails in the structs of the whole file, and each is declared.
pub fn files_declare()
    ensures { (program : Program) → FilesDeclare program }
{
    names_differ();
    members_differ();
    uses_earlier();
    types_apart();
    structs_there();
    parts_stand();
}
