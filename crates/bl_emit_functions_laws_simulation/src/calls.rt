//! Calls of the C functions of a typed program's functions. A call of the C function of a function without a result
//! traps iff the function does. Otherwise it leaves the function's outputs at their places, and all older memory else
//! unchanged (`specs/Calls.antt`, `ProceduresSimulate`). Premises are that earlier functions agree, that no arguments
//! of the function's calls overlap, and that it has no more variables and flags than names (`MayRun`). `results` has
//! functions with a result.

ghost use Rattle.bl_tree.specs.declared.program.Program.{Program};
ghost use Rattle.bl_emit_functions_laws_simulation.specs.Calls.{BodiesEnd, CallsKeepFrame, FramesBegin, HandsOver, ProceduresSimulate};

use crate::bodies::statements_simulate;

/// The body of a function with a result never goes on to its end: it traps, or returns a result. That of a function without
/// one returns none.
pub fn bodies_end()
    ensures { (program : Program) → BodiesEnd program.structs program.units program.entry }
{}

/// A call reaches what was there before it by its body alone: where the body begins that is as the caller has it, and after
/// the call it is as the body left it.
pub fn calls_keep()
    ensures { CallsKeepFrame }
{}

/// A call hands over what the parameters of the called function want: an argument for each, which has the value of its input
/// or output. The place of an output was there before the call, and has nothing in common with those of other arguments.
pub fn hands_over()
    ensures { (program : Program) → HandsOver program.structs program.units program.entry }
{}

/// Where a function is called with arguments that have values, the variables of its C function begin with these values, or
/// with zero, its pointers lead to what keeps apart, and an input that it copies first stands where its pointer leads.
pub fn frames_begin()
    ensures { (program : Program) → FramesBegin program.structs program.units program.entry }
{}

/// A call of the C function of a function without a result does what the function does, where the earlier functions do.
pub fn procedures_simulate()
    ensures { (program : Program) → ProceduresSimulate program.structs program.units program.entry }
{
    statements_simulate();
}
