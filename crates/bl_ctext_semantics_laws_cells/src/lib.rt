//! What a C file keeps from tick to tick: only the numbers of the cells of its three objects. The number of each scalar place in an object is
//! kept (`specs/Cells.antt`, `AllCellsKept`). Lemmas only.
#![tactic(auto)]

pub mod cells;
