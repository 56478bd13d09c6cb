//! Tests of `bl_rows_stream` for what no command shows: the numbers of statements of ticks, a run that writes nothing,
//! and a runner that goes on over a second file.
#![tactic(auto)]

#[cfg(test)]
mod further;
#[cfg(test)]
mod hand;
