//! Tests of the one call `bl_top::blechc` over files and sinks in memory: absent files, and calls that fail in turn
//! (docs/FORMATS.md, "Notes"); lists of plants, and what a drive leaves of them (docs/FORMATS.md, "Commands"). What the
//! program itself can show stands in `tests/` as data.
#![tactic(auto)]

#[cfg(test)]
mod call;
#[cfg(test)]
mod cuts;
#[cfg(test)]
mod drives;
#[cfg(test)]
mod end;
#[cfg(test)]
mod faults;
#[cfg(test)]
mod plants;
#[cfg(test)]
mod walks;
