//! Decides whether C functions have a spelling (`Spellable.antt` of `bl_ctext`): each name, number, operator and
//! length in them has one, and their brackets go at most 2,000 deep. `spell` answers true only for functions that have a
//! spelling behind every list of structs that have one.
#![tactic(auto)]

mod depth;
mod exprs;
mod functions;
mod literals;
mod stmts;

pub use functions::spell;
