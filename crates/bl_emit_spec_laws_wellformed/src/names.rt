//! The names in the C of activities differ. Premises are that 64 bits hold the numbers of nodes, counters and
//! variables, and that those of flags, marks and `run`s differ (`specs/Names.antt`, `NumbersDiffer`). Then the
//! parameters and locals of an activity's C function have different names (`LocalsDiffer`), and so have the members of
//! its structs (`FrameDiffers`, `MemoryDiffers`).

ghost use Rattle.bl_emit_spec_laws_wellformed.specs.Names.{FrameDiffers, LocalsDiffer, MemoryDiffers};

/// No two parameters and locals of the C function of an activity have one name.
pub fn locals_differ()
    ensures { LocalsDiffer }
{}

/// No two members of the struct of where an activity rests have one name.
pub fn frame_differs()
    ensures { FrameDiffers }
{}

/// No two members of the struct of what an activity remembers have one name.
pub fn memory_differs()
    ensures { MemoryDiffers }
{}
