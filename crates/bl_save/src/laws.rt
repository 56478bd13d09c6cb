//! A law of saved states.

ghost use Rattle.bl_ctext_semantics.specs.Parts.{Parts};
ghost use Rattle.bl_save.specs.States.{OneMemory};

/// Bytes are the saved state of at most one memory of a file, so `restore` leaves the one that was saved.
pub fn one_memory()
    ensures { (file : Parts) → OneMemory file }
{}
