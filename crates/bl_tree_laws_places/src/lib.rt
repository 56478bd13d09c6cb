//! Typed trees whose places are mapped, and laws of them. Lemmas only. `specs/Placed.antt` maps all places of a tree, such as `placed_unit`.
//! A tree with mapped places reads and writes what the tree does (`effects_stay`), and is the tree again where a second map brings the
//! places back (`units_come_back`). `specs/Laws.antt` also says how a rule fails at the images of places (`FailsMoved`).
#![tactic(auto)]

pub mod trees;
