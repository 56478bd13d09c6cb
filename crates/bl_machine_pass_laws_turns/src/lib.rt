//! A pass over an activity by registers, turn by turn. Lemmas only: what waits after a turn (`waiting`), marks and
//! joins (`joins`), and a pass from its start through each of its turns (`turns`).
#![tactic(auto)]

pub mod joins;
pub mod turns;
pub mod waiting;
