//! Laws of bodies with first turns where places are mapped. Lemmas only. To copy loops for their first turns and to map places come to the same
//! in either order, and a map of places leaves the number of statements (`specs/Laws.antt`).
#![tactic(auto)]

pub mod bodies;
