//! Laws of typing the items of one text in two programs: behind its own start, and among the items of other texts. Lemmas only. If what is known
//! before the items agrees, they fail alike, with mapped places, and declare alike (`ItemsAgree` in `specs/Laws.antt`).
#![tactic(auto)]

pub mod items;
