//! Tests of `bl_plant`: a tank and a ramp are asked and told, and a script goes on after a turn in which it fails.
#![tactic(auto)]

#[cfg(test)]
mod calls;
