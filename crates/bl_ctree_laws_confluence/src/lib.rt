//! Laws of confluence: steps of different branches can be done in either order. They speak of control trees and stores of `bl_ctree`. `stores`:
//! what an instance sees of a store, and that values put at homes apart are put in either order (`specs/Stores.antt`, `PutsCommute`). `deeds`:
//! which deeds are done in either order. `apart`: what branches write apart from each other. `independent`: the branches of accepted programs are
//! independent. Each law is the contract of a function with an empty body. docs/THEOREM.md says where they are used.
#![tactic(auto)]

pub mod apart;
pub mod deeds;
pub mod independent;
pub mod stores;
