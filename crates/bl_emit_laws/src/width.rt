//! The frames in the C file of an accepted program. One lemma: the file has the struct of where an activity rests, with
//! as many counters as its width: the most places of it that can rest at once (`specs/Width.antt`, `FramesHaveWidth`).

ghost use Rattle.bl_tree.specs.declared.program.Program.{Program};
ghost use Rattle.bl_emit_laws.specs.Width.{FramesHaveWidth};

use crate::kept::frames_are_declared;
use bl_ctree_laws_confluence::deeds::accepted_programs_are_orderly;
use bl_machine_laws::numbers::activities_take_their_width;

/// The frame of each activity has as many counters as its width.
pub fn frames_have_width()
    ensures { (program : Program) → FramesHaveWidth program }
{
    accepted_programs_are_orderly();
    activities_take_their_width();
    frames_are_declared();
}
