//! The compiler from C statements to the code that `Code.antt` of `bl_crun_code` defines for them.
#![tactic(auto)]

mod acts;
mod stmt;
mod turns;

pub use stmt::statements;
