//! One pass a tick does what the semantics allows. Lemmas only: trees and their numbers (`numbers`), what waits in them
//! (`waiting`), one pass over a tick (`passes`), traces of machines (`traces`), and where activities may rest
//! (`rests`).
#![tactic(auto)]

pub mod numbers;
pub mod passes;
pub mod rests;
pub mod traces;
pub mod waiting;
