//! Tests of `bl_eval`: values and acts of programs that are read from texts (docs/LANGUAGE.md, "How a program runs").
#![tactic(auto)]

#[cfg(test)]
mod program;
#[cfg(test)]
mod rows;
#[cfg(test)]
mod tests;
