//! The machine that runs the code of C files. Where a run ends (`specs/Ends.antt`, `Halts`), `Vm::run` answers the result
//! of the machine of `bl_crun_code`. The cells and the count are those of that end, which is unique (`Ended`); the
//! count is at most 2^128 - 1. A run allocates no memory.
#![tactic(auto)]

mod acts;
mod address;
mod arithmetic;
mod calls;
mod cells;
mod flow;
mod frame;
mod naturals;
mod operands;
mod prelude;
mod ranges;
mod rare;
mod registers;
mod run;
pub mod vm;
mod waiting;

pub use vm::Vm;
