//! What an instance sees of values that are put at the homes of its paths. Lemmas only (`specs/Seen.antt`), over typed
//! programs that pass the rules, where paths of one instance that don't overlap have homes that don't either. A value
//! that is put at the home of a path is seen there, and nothing else changes (`PutsAreSeen`). An instance sees the
//! values that its act leaves, also of a declaration (`ActsAreSeen`). The target of a `run` has its result
//! (`TargetsAreSeen`).

ghost use Rattle.bl_machine_pass_laws_typing.specs.Seen.{ActsAreSeen, PutsAreSeen, TargetsAreSeen};

use bl_ctree_laws_confluence::deeds::{
    accepted_programs_are_orderly, homes_are_apart, instances_have_callers,
};
use bl_ctree_laws_confluence::stores::{declarations_keep_others, puts_commute, stores_are_local};
use bl_ctree_laws_typing::views::views_are_typed;

/// A value that is put at the home of a path is seen there, and all else is seen as before.
pub fn puts_are_seen()
    ensures { PutsAreSeen }
{
    accepted_programs_are_orderly();
    homes_are_apart();
    instances_have_callers();
    views_are_typed();
    puts_commute();
    stores_are_local();
}

/// After an act its instance sees the values that the act leaves.
pub fn acts_are_seen()
    ensures { ActsAreSeen }
{
    puts_are_seen();
    instances_have_callers();
    views_are_typed();
    declarations_keep_others();
}

/// A target of a `run` is seen to have what it gets.
pub fn targets_are_seen()
    ensures { TargetsAreSeen }
{
    puts_are_seen();
    views_are_typed();
}
