//! Tests of `bl_crun` for what no command shows: the numbers of statements that ticks execute, the cells after each
//! tick, and rows that don't fit (docs/C_SUBSET.md, "Meaning").
#![tactic(auto)]

#[cfg(test)]
mod cells;
#[cfg(test)]
mod drive;
#[cfg(test)]
mod hand;
