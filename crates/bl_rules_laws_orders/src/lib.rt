//! Laws of the orders of an accepted program. Lemmas only. The numbers that they give to the nodes of each instance rise along
//! every edge, as the laws on progress ask (`specs/Ranks.antt`, `OrdersRise`).
#![tactic(auto)]

pub mod ranks;
