//! Tests of `bl_graph`: the nodes and edges of each kind of statement, beside lists that were written by hand
//! (docs/LANGUAGE.md, "Tick graphs").
#![tactic(auto)]

#[cfg(test)]
mod branches;
#[cfg(test)]
mod data_edges;
#[cfg(test)]
mod printed;
#[cfg(test)]
mod program;
#[cfg(test)]
mod statements;
