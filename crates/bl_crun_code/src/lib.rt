//! C files as flat code for a machine with operands: the instructions, the code of each part of a file
//! (`specs/Code.antt`), and the machine (`specs/Vm.antt`). Law: the machine that begins at a function's entry simulates
//! the function over numbered cells, with the same result, cells and count, for all structs and functions
//! (`specs/Laws.antt`, `NamedFunctionsRun`).
#![tactic(auto)]

pub mod instruction;
pub mod laws;
