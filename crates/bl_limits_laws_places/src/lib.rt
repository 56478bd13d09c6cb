//! Laws of the part of rule Cells that looks at nesting, where places are mapped. Lemmas only. Structs and units with mapped places are nested
//! too deep exactly at the images of the places at which they were (`specs/Laws.antt`).
#![tactic(auto)]

pub mod rules;
