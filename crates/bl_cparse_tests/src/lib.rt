//! Tests of `bl_cparse` with the printer of `bl_ctext`: C texts that are read and printed again (docs/C_SUBSET.md,
//! "What `blechc` writes").
#![tactic(auto)]

#[cfg(test)]
mod printed;
