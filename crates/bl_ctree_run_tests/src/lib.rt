//! Tests of `bl_ctree_run` and of `bl_effects`: small programs run by the parallel meaning, whose actions are taken in
//! several orders, and what a table tells of a statement (docs/LANGUAGE.md, "Control trees" and "Effects").
#![tactic(auto)]

#[cfg(test)]
mod drive;
#[cfg(test)]
mod effects;
#[cfg(test)]
mod tests;
