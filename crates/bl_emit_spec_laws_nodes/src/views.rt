//! What an act of an instance leaves. Lemmas only. It leaves the variables inside of its callees, and the result
//! (`specs/Views.antt`, `ActsLeave`). Where each activity remembers what those that it runs remember, one that
//! remembers a variable at any depth is marked so (`RememberingStands`).

ghost use Rattle.bl_emit_spec_laws_nodes.specs.Views.{ActsLeave, RememberingStands};

use bl_ctree_laws_confluence::deeds::instances_nest;
use bl_ctree_laws_confluence::stores::{declarations_keep_others, puts_commute};

/// An act leaves the variables inside of what its instance calls, and the result.
pub fn acts_leave()
    ensures { ActsLeave }
{
    instances_nest();
    declarations_keep_others();
    puts_commute();
}

/// An activity that remembers a variable, itself or in what it calls, is told to remember.
pub fn remembering_stands()
    ensures { RememberingStands }
{}
