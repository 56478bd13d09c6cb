//! What an instance sees of its own deeds, in every compiled program. Lemmas only (`specs/Seen.antt`). After an act its
//! instance sees the values that the act leaves (`OwnIsSeen`). Once a target of a `run` has its result, the instance
//! sees that at the target and all else as before. The variables inside its callees and its own result are unchanged
//! (`TargetsAreSeen`).

ghost use Rattle.bl_emit_spec_laws_nodes.specs.Seen.{OwnIsSeen, TargetsAreSeen};

use bl_ctree_laws_confluence::deeds::instances_nest;
use bl_ctree_laws_confluence::stores::puts_commute;
use bl_machine_pass_laws_typing::seen::{acts_are_seen, targets_are_seen};

/// After an act its instance sees the values that the act leaves.
pub fn own_seen()
    ensures { OwnIsSeen }
{
    acts_are_seen();
}

/// Once a target has its result the instance sees that there, and what is inside the instances that it calls is as before.
pub fn targets_seen()
    ensures { TargetsAreSeen }
{
    targets_are_seen();
    instances_nest();
    puts_commute();
}
