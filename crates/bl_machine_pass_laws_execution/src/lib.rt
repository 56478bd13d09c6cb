//! What one call of an activity's function has to do: a pass of an instance by rules over a store, with the copies that `prev` asks, over
//! frames of what the instance calls (`specs/Executes.antt`). None of these functions does anything: the contract is the law. Such passes do
//! what turns lead to (`passes`, `performs`), ticks are made of them (`ticks`), and over all rows there is such a run with the only trace that
//! the meaning allows (`runs`).
#![tactic(auto)]

pub mod frames;
pub mod fresh;
pub mod kept;
pub mod machines;
pub mod passes;
pub mod performs;
pub mod runs;
pub mod ticks;
