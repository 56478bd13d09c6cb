//! Tests of `bl_limits_measures` on small units (docs/LANGUAGE.md, "Measures").
#![tactic(auto)]

#[cfg(test)]
mod units;
