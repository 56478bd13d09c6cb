//! Tests of `bl_simplify`: what stands for the functions of a file, and files that stay as they are.
#![tactic(auto)]

#[cfg(test)]
mod simplified;
