//! Laws of the rules Twice and Cycle under a map of places. Lemmas only. If another map undoes it, units with mapped places fail a rule
//! exactly at the images of the places at which the units fail it. So they pass iff the units do (`specs/Laws.antt`).
#![tactic(auto)]

pub mod rules;
