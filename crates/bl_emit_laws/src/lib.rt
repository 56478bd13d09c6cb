//! Laws of the C file that is written of a program. Lemmas only. The file is that of the rules of its nodes (`told`).
//! It has a spelling (`spelled`) and few cells (`cells`), is well formed (`formed`, `accepted`), keeps its declared
//! state (`kept`), and shows the program's trace (`shows`). It has one function for each activity, with as many `if`s
//! as blocks (`counters`) and as many counters as its width (`width`). To that end, its units meet their conditions
//! (`forms`), and its functions know their callees (`linked`).
#![tactic(auto)]

pub mod accepted;
pub mod cells;
pub mod counters;
pub mod formed;
pub mod forms;
pub mod kept;
pub mod linked;
pub mod shows;
pub mod spelled;
pub mod told;
pub mod width;
