//! Laws of tick graphs where places are mapped. Lemmas only. `specs/Placed.antt` maps the places of plain statements and of nodes. The tick
//! graphs of a body with mapped places have the edges of those of the body, and their nodes at the mapped places (`specs/Laws.antt`).
#![tactic(auto)]

pub mod graphs;
