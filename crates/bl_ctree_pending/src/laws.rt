//! A law, the contract of a function that does nothing.

ghost use Rattle.bl_ctree_pending.specs.Laws.{PathsTell};

/// The paths that are told of a tree are those that it may still write.
pub fn paths_tell_what_may_be_written()
    ensures { PathsTell }
{}
