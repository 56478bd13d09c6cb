//! C functions of functions with a result. Such a function copies its aggregate inputs before its statements: that C
//! goes on, each variable has its first value, and nothing else has changed (`specs/Results.antt`, `InputsBegin`). A
//! call of the C function traps iff the function does. Otherwise it returns the function's result, and leaves all older
//! memory unchanged (`ResultsSimulate`). The premises are those of functions without a result (`MayRun`).

ghost use Rattle.bl_tree.specs.declared.program.Program.{Program};
ghost use Rattle.bl_emit_functions_laws_simulation.specs.Results.{InputsBegin, ResultsSimulate};

use crate::bodies::statements_simulate;
use crate::calls::{bodies_end, calls_keep, frames_begin, hands_over};

/// Once the C that copies them has run, the inputs that a function copies have what its arguments have.
pub fn inputs_begin()
    ensures { (program : Program) → InputsBegin program.structs program.units program.entry }
{}

/// A call of the C function of a function with a result returns what the function returns, where the earlier functions do.
pub fn results_simulate()
    ensures { (program : Program) → ResultsSimulate program.structs program.units program.entry }
{
    inputs_begin();
    statements_simulate();
    bodies_end();
    calls_keep();
    hands_over();
    frames_begin();
}
