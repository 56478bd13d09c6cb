//! The C of a function's statements simulates them, where memory represents the values of its variables
//! (`specs/Bodies.antt`, `Represents`). It traps iff they trap, and else goes on or returns as they do. Memory then
//! represents the values after them, and is unchanged outside of variables that may be written and of their flags
//! (`FlowSimulates`). Premises are that earlier functions agree and that the function's pointers are valid
//! (`FunctionIsRunning`). `units` has whole functions.

ghost use Rattle.bl_tree.specs.declared.program.Program.{Program};
ghost use Rattle.bl_emit_functions_laws_simulation.specs.Bodies.{StatementsSimulate};

use bl_emit_acts_laws_simulation::{acts_simulate, expressions_simulate, frames_apart};

/// The C of statements of a typed program's function comes to what the statements come to.
pub fn statements_simulate()
    ensures { (program : Program) → StatementsSimulate program.structs program.units program.entry }
{
    expressions_simulate();
    acts_simulate();
    frames_apart();
}
