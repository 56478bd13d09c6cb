//! Tests of `bl_link`: parts of a program that are linked, and why parts aren't.
#![tactic(auto)]

#[cfg(test)]
mod tests;
