//! Tests of `bl_names`: the positions that stand for the names of a source text.
#![tactic(auto)]

#[cfg(test)]
mod tests;
