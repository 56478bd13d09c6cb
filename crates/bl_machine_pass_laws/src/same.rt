//! The counters determine the control state of a program between ticks (`specs/Same/Laws.antt`). Two trees of an
//! instance with the same numbers continue alike, if their callees do (`NumbersTell`). So do two trees of a program
//! whose instances have the same numbers (`CountersTell`). The proof uses that a tree is a residual of its body
//! (`specs/Same/Residual.antt`), which holds at the start and is kept by waking, turns and whole passes
//! (`StaysResidual`). Lemmas only.

ghost use Rattle.bl_machine_pass_laws.specs.Same.Laws.{CountersTell, NumbersTell, StaysResidual};

use crate::spots::spots_differ;

/// Trees of an instance are left of its body as it is written.
pub fn stays_residual()
    ensures { StaysResidual }
{}

/// Between ticks an instance with the same numbers stands where it stood.
pub fn numbers_tell()
    ensures { NumbersTell }
{
    spots_differ();
}

/// And so does a whole program whose instances have the same numbers.
pub fn counters_tell()
    ensures { CountersTell }
{
    spots_differ();
}
