//! Frames of instances: what the counters of each hold while it isn't passed. One lemma (`specs/Frames.antt`). The
//! instances called in a tree have greater numbers than the tree's own, and frames inside two calls are disjoint. So
//! changing the frame of one instance keeps the frames below it, and changing frames inside one call keeps those inside
//! another (`FramesNest`).

ghost use Rattle.bl_machine_pass_laws_execution.specs.Frames.{AllFramesNest};

use bl_ctree_laws_confluence::deeds::instances_nest;
use bl_machine_laws::waiting::waking_keeps_numbers;

/// Frames of instances nest as their calls do.
pub fn frames_nest()
    ensures { AllFramesNest }
{
    instances_nest();
    waking_keeps_numbers();
}
