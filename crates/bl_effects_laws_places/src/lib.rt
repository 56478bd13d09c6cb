//! Laws of the rules Pause, Conflict, Alias and Instant where places are mapped. Lemmas only. Units with mapped places fail a rule exactly at
//! the images of the places at which the units fail it, so they pass iff the units do (`specs/Laws.antt`).
#![tactic(auto)]

pub mod rules;
