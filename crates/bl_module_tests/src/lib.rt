//! Tests of `bl_module`: parts of a program of several files, and why a text has none.
#![tactic(auto)]

#[cfg(test)]
mod tests;
