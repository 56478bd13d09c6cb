//! Laws of well-formed trees in which no rule fails, and so of source texts in which none does, whose trees are such
//! (`programs_of_texts_are_of_trees` of `bl_rules`). None of these functions does anything: the contract is the law. Their
//! programs have exactly one trace (`traces`), and ask what a variable was only behind its declaration (`declared`).
#![tactic(auto)]

pub mod declared;
pub mod traces;
