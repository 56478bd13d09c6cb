//! Laws of simulation: the C functions of all activities of a compiled program simulate passes of their instances (`simulation`, with
//! `specs/Simulation.antt`, `CompiledSimulate`). Each program of a text that passes the rules has what these laws ask (`compiled`, with
//! `ProgramsCompile`). The C call of a `run` establishes the precondition of the callee's pass (`establishes`) and its postcondition (`leaves`).
//! So the blocks of the `run` simulate it (`runs`). Each law is the contract of a function with an empty body.
#![tactic(auto)]

pub mod compiled;
pub mod establishes;
pub mod leaves;
pub mod runs;
pub mod simulation;
