//! Laws of programs whose activities are peeled. None of these functions does anything: the contract is the law. Peeled units keep the
//! rules on effects (`specs/Rules.antt`), their places decide on statements (`specs/Places.antt`), and they ask what a variable was only
//! behind its declaration (`specs/Prevs.antt`).
#![tactic(auto)]

pub mod places;
pub mod prevs;
pub mod rules;
