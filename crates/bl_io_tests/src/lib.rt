//! Tests of `bl_io`: files and sinks in memory and of the system (docs/FORMATS.md, "Notes").
#![tactic(auto)]

#[cfg(test)]
mod calls;
