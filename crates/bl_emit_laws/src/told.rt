//! The C that is made of a program by the lists of its rules is that of the rules of its nodes (`specs/Told.antt`,
//! `WrittenIsComputed`). Lemmas only.

ghost use Rattle.bl_emit_laws.specs.Told.{ActivitiesAreComputed, WrittenIsComputed};

use bl_emit_blocks::blocks_alike;
use bl_emit_blocks_laws::bodies_are_numbered;
use bl_machine_transitions_laws::rules_are_listed;

/// The structs and the function of an activity of a machine are those that its list of rules tells.
pub fn activities_are_told()
    ensures { ActivitiesAreComputed }
{
    rules_are_listed();
    bodies_are_numbered();
    blocks_alike();
}

/// What is written of a program is what the lists of rules tell.
pub fn written_is_told()
    ensures { WrittenIsComputed }
{
    activities_are_told();
}
