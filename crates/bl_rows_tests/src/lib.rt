//! Tests of `bl_rows`: a file of rows that comes in two pieces, cut at each of its bytes.
#![tactic(auto)]

#[cfg(test)]
mod cuts;
