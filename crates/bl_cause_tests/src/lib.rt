//! Tests of `bl_cause` on graphs built by hand (docs/LANGUAGE.md, "Tick graphs").
#![tactic(auto)]

#[cfg(test)]
mod graphs;
