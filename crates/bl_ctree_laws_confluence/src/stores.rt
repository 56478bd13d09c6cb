//! What instances see of a store. Laws, as contracts of functions that do nothing: a path leads where its variable leads and
//! on by its fields, and expressions and acts of an instance look at nothing in a store but the homes of what they read and
//! write, and at what their variables were before. Values are put at homes that don't overlap in either order, and each leaves all
//! but its home (`specs/Stores.antt`).

ghost use Rattle.bl_ctree_laws_confluence.specs.Stores.{FramesKeepOthers, HomesLeadOn, OutcomesThereAreLocal, PutsCommute};
ghost use Rattle.bl_ctree_laws_confluence.specs.Stores.{PutsKeepOthers, RememberingKeepsOthers, ValuesThereAreLocal, ViewsAreLocal};

/// Expressions and acts of an instance look at nothing but homes of what they read and write.
pub fn stores_are_local()
    ensures homes { HomesLeadOn }
    ensures views { ViewsAreLocal }
    ensures values { ValuesThereAreLocal }
    ensures outcomes { OutcomesThereAreLocal }
{}

/// Values are put at homes that don't overlap in either order, and each leaves all but its home.
pub fn puts_commute()
    ensures order { PutsCommute }
    ensures others { PutsKeepOthers }
{}

/// A change of one frame is done in either order with what is done to other instances.
pub fn frames_keep_others()
    ensures { FramesKeepOthers }
{}

/// What a declared variable had before is set in either order with what is done to other variables.
pub fn declarations_keep_others()
    ensures { RememberingKeepsOthers }
{}
