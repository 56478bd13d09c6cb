//! The statements of the C functions of activities are well formed. No clause fails in them
//! (`ActivityBodiesWellFormed`). Premises are that the needed structs and the functions of earlier units stand before
//! the function (`specs/Bodies.antt`, `ActivityStands`), and that its rules use only its registers (`OwnsRules`).

ghost use Rattle.bl_tree.specs.declared.program.Program.{Program};
ghost use Rattle.bl_emit_spec_laws_wellformed_bodies.specs.Bodies.{ActivityBodiesWellFormed};

use bl_emit_acts_laws_wellformed::formed::acts_well_formed;
use bl_emit_spec_laws_wellformed::names::{frame_differs, locals_differ, memory_differs};

/// Nothing fails in the statements of the C function of an activity of a typed program.
pub fn activity_bodies_well_formed()
    ensures { (program : Program) → ActivityBodiesWellFormed program.structs program.units program.entry }
{
    acts_well_formed();
    locals_differ();
    frame_differs();
    memory_differs();
}
