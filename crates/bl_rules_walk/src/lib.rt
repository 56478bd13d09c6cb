//! Walks of accepted programs. `walk` runs the program of an accepted source over rows, in the interleaving that a seed picks.
//! It returns the trace and the places of the steps that `walk` of `bl_walk` returns (`Appended` there). That function requires
//! three facts of its program, which `bl_rules_laws` proves for every accepted program. So here nothing is required.
#![tactic(auto)]

mod run;

pub use run::walk;
